// Text is written on a page, behind what stands there. What does not fit is left out: that is promised byte for byte, and so there is no `Display`.
ghost use Rattle.std.specs.Prelude.{◌≡◌, ◌<◌, [], ◌∷◌, ◌++◌, take};
ghost use Rattle.text.specs.Pages as pages;
ghost use Rattle.text.specs.Pages.{Says};

use octets::ONE;

// Lent bytes, of which the first are text.
#[derive(Drop)]
pub struct Page<'a> {
    pub bytes: &'a mut [u8],
    pub length: usize,
}

// The first n bytes, or all where there are fewer.
pub fn up_to(bytes: &[u8], n: usize) -> &[u8]
    ensures { result.now ≡ take n bytes.now }
{
    if bytes.len() < n {
        return bytes;
    }
    octets::cut(bytes, 0, n)
}

// By `as`, here and in the crates above: from a u64 there is no `u8::from`, and with `u64::from` goals stay open.
fn digit(d: u64) -> u8
    requires { d < 16 }
    ensures { result ≡ pages.digit d }
{
    if d < 10 { b'0' + d as u8 } else { 87 + d as u8 }
}

impl<'a> Page<'a> {
    pub fn new(bytes: &'a mut [u8]) -> Page<'a>
        ensures same_reference { result.bytes.ghost_name ≡ bytes.entry.ghost_name }
        ensures empty { (result.bytes.now ≡ bytes.old) × (result.length ≡ 0) }
    {
        Page { bytes, length: 0 }
    }

    pub fn text(&self) -> &[u8]
        ensures { result.now ≡ take self.now.length self.now.bytes.now }
    {
        up_to(self.bytes, self.length)
    }

    pub fn say(&mut self, text: &[u8])
        ensures { Says self.old self.new text.now }
    {
        if self.bytes.len() <= self.length {
            return;
        }
        let room = self.bytes.len() - self.length;
        if room < text.len() {
            octets::copy(self.bytes, self.length, octets::cut(text, 0, room));
            self.length = self.bytes.len();
            return;
        }
        octets::copy(self.bytes, self.length, text);
        self.length += text.len();
    }

    fn say_digit(&mut self, d: u64)
        requires { d < 16 }
        ensures { Says self.old self.new (pages.digit d ∷ []) }
    {
        self.say(&[digit(d)]);
    }

    pub fn say_decimal(&mut self, n: u64)
        ensures { Says self.old self.new (pages.decimal n) }
    {
        if n < 10 {
            self.say_digit(n);
            return;
        }
        self.say_decimal(n / 10);
        self.say_digit(n % 10);
    }

    // A text, and a number in decimal digits behind it.
    pub fn say_numbered(&mut self, text: &[u8], number: u64)
        ensures { Says self.old self.new (text.now ++ pages.decimal number) }
    {
        self.say(text);
        self.say_decimal(number);
    }

    pub fn say_signed(&mut self, n: i64)
        ensures { Says self.old self.new (pages.signed n) }
    {
        if n < 0 {
            self.say(b"-");
        }
        self.say_decimal(n.unsigned_abs());
    }

    fn say_pair(&mut self, byte: u8)
        ensures { Says self.old self.new (pages.hexadecimal (byte ∷ [])) }
    {
        self.say_digit(byte as u64 / 16);
        self.say_digit(byte as u64 % 16);
    }

    pub fn say_hexadecimal(&mut self, bytes: &[u8])
        ensures { Says self.old self.new (pages.hexadecimal bytes.now) }
    {
        for byte in bytes {
            self.say_pair(*byte);
        }
    }
}
