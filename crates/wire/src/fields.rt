// Fields, read one after another by a reader that holds the message and its place in it.
ghost use Rattle.std.specs.Prelude.{◌≡◌, ◌+◌, ◌<◌, ◌≤◌, ◌^◌, length, eqb, ◌&&◌};
ghost use Rattle.wire.specs.Numbers.{is_message};
ghost use Rattle.wire.specs.Fields as fields;

use octets::{ONE, TWO};

// The length that the field at `at` says, by `as`, here and in the crates above: between a u64 and a usize there is no `From`.
fn size_at(message: &[u8], at: usize) -> usize
    requires { at + 3 ≤ length message.now }
    ensures { (result ≡ fields.size message.now at) × (result < 2 ^ 16) }
{
    octets::get::<TWO>(message, at + 1) as usize
}

#[derive(Clone, Copy)]
pub struct Reader<'a> {
    pub message: &'a [u8],
    pub at: usize,
}

impl<'a> Reader<'a> {
    pub fn new(message: &'a [u8]) -> Reader<'a>
        ensures { result ≡ fields.reader_at message.entry 0 }
    {
        Reader { message, at: 0 }
    }

    // The reader past the field at its place. Inlined, so that tags and lengths that are known fold into constants.
    #[inline(always)]
    pub fn field(self, tag: u64, least: usize, most: usize) -> Option<Reader<'a>>
        ensures { result ≡ fields.reached self.entry.message (fields.past self.entry.message.now self.entry.at tag least most) }
    {
        let Reader { message, at } = self;
        let end = message.len();
        if end < 3 {
            return None;
        }
        if end - 3 < at {
            return None;
        }
        if octets::get::<ONE>(message, at) != tag {
            return None;
        }
        let size = size_at(message, at);
        if size < least {
            return None;
        }
        if most < size {
            return None;
        }
        let start = at + 3;
        if end - start < size {
            return None;
        }
        Some(Reader {
            message,
            at: start + size,
        })
    }

    // Field by field, as the definition has it: how far one goes is known once it is read. The reader past all fields from its place on, each with this tag and a value of `size` bytes, up to the message's end.
    pub fn fields(self, tag: u64, size: usize) -> Option<Reader<'a>>
        ensures { result ≡ fields.reached self.entry.message (fields.past_all (length self.entry.message.now) self.entry.message.now self.entry.at tag size size) }
    {
        let message = self.message;
        let mut reader = self;
        while reader.at != message.len() {
            reader = reader.field(tag, size, size)?;
        }
        Some(reader)
    }

    // Nothing stands behind the last field, and the message is not too long.
    pub fn whole(self) -> bool
        ensures { result ≡ (is_message (length self.entry.message.now) && eqb self.entry.at (length self.entry.message.now)) }
    {
        self.message.len() <= 1148 && self.at == self.message.len()
    }
}
