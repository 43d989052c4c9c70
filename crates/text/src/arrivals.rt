// Bytes that arrive in pieces are held at the front of a buffer until a line is whole. Each clause says of the buffer that it is still the same one, and
// as long, as it has to of a `&mut` in a struct.
ghost use Rattle.std.specs.Prelude.{◌≡◌, true, false, length, take, drop};
ghost use Rattle.octets.specs.Octets.{put};
ghost use Rattle.text.specs.Arrivals as arrivals;
ghost use Rattle.text.specs.Arrivals.{held_in, waiting, Leaves};

use crate::page::up_to;
use crate::words;

// How many bytes at the front of a buffer are held, and whether they go on with a line that was refused as too long: that is said of none, too, and
// the definitions have it beside the bytes.
#[derive(Clone, Copy)]
pub struct Held {
    pub filled: usize,
    pub skips: bool,
}

// A buffer, and the same two of it.
#[derive(Drop)]
pub struct Input<'a> {
    pub buffer: &'a mut [u8],
    pub filled: usize,
    pub skips: bool,
}

// What is to be done with them: the definition `next_of` names these steps.
#[derive(Drop)]
pub enum Next {
    Answer,
    Await,
    Refuse,
    Skip,
    Drop,
}

// What is to be done with what is held. The bytes may be lent to others too.
pub fn next_step(buffer: &[u8], held: Held) -> Next
    ensures { result ≡ arrivals.next_of (held_in buffer.now held) }
{
    let bytes = up_to(buffer, held.filled);
    if words::line_end(bytes) < bytes.len() {
        if held.skips {
            return Next::Skip;
        }
        return Next::Answer;
    }
    if held.skips {
        return Next::Drop;
    }
    if bytes.len() > words::LINE {
        return Next::Refuse;
    }
    Next::Await
}

// Moves what stands from `from` up to `filled` to the front, since there is no heap, and answers how many bytes that are.
fn move_front(s: &mut [u8], from: usize, filled: usize) -> usize
    ensures { (s.new ≡ put s.old 0 (drop from (take filled s.old))) × (result ≡ length (drop from (take filled s.old))) }
{
    let end = up_to(s, filled).len();
    if end <= from {
        return 0;
    }
    s.copy_within(from..end, 0);
    end - from
}

impl<'a> Input<'a> {
    pub fn new(buffer: &'a mut [u8]) -> Input<'a>
        ensures same_reference { result.buffer.ghost_name ≡ buffer.entry.ghost_name }
        ensures empty { (result.buffer.now ≡ buffer.old) × (result.filled ≡ 0) × (result.skips ≡ false) }
    {
        Input {
            buffer,
            filled: 0,
            skips: false,
        }
    }

    pub fn bytes(&self) -> &[u8]
        ensures { result.now ≡ (waiting self.now).bytes }
    {
        up_to(self.buffer, self.filled)
    }

    pub fn held(&self) -> Held
        ensures { result ≡ record { filled = self.now.filled; skips = self.now.skips } }
    {
        Held {
            filled: self.filled,
            skips: self.skips,
        }
    }

    pub fn next_step(&self) -> Next
        ensures { result ≡ arrivals.next_of (waiting self.now) }
    {
        next_step(self.buffer, self.held())
    }

    // What has arrived of a line is dropped, and the rest of it is to come.
    pub fn pass(&mut self)
        ensures left { Leaves self.old self.new arrivals.passing }
        ensures kept { (self.new.buffer.now ≡ self.old.buffer.now) × (self.new.filled ≡ 0) × (self.new.skips ≡ true) }
    {
        self.filled = 0;
        self.skips = true;
    }

    // The first n bytes are done with.
    pub fn release(&mut self, n: usize)
        ensures left { Leaves self.old self.new (arrivals.released n (waiting self.old)) }
        ensures room { length self.new.buffer.now ≡ length self.old.buffer.now }
    {
        self.filled = move_front(self.buffer, n, self.filled);
        self.skips = false;
    }

    // The end of the line that was passed over has arrived: what stands behind it is held.
    pub fn skip(&mut self)
        ensures left { Leaves self.old self.new (arrivals.skipped (waiting self.old)) }
        ensures room { length self.new.buffer.now ≡ length self.old.buffer.now }
    {
        let end = words::line_end(self.bytes());
        if end >= self.filled {
            self.filled = 0;
            self.skips = false;
            return;
        }
        self.release(end + 1);
    }
}
