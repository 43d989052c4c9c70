// Numbers and stretches in slices of bytes, big-endian.
#![tactic(auto)]

ghost use Rattle.std.specs.Prelude.{◌≡◌, ◌+◌, ◌*◌, ◌≤◌, ◌<◌, ◌^◌, length, replicate};
ghost use Rattle.octets.specs.Octets as octets;

// The n bytes from at, uncopied.
pub fn cut(s: &[u8], at: usize, n: usize) -> &[u8]
    requires { at + n ≤ length s.now }
    ensures { (result.now ≡ octets.cut s.now at n) × (length result.now ≡ n) }
{
    &s[at..at + n]
}

// The widths of a number: one, two, four or eight bytes. That there is no other is a clause of each function, since no const argument is computed.
pub const ONE: usize = 0;

pub const TWO: usize = 1;

pub const FOUR: usize = 2;

pub const EIGHT: usize = 3;

fn size<const WIDTH: usize>() -> usize
    requires { WIDTH ≤ 3 }
    ensures { (result ≡ 2 ^ WIDTH) × (result ≤ 8) }
{
    1 << WIDTH
}

// As copy_from_slice, of whose two places the compiler does not know that they lie apart: its test would stay in the machine code of every number.
fn refill(to: &mut [u8], from: &[u8])
    requires { length to.old ≡ length from.now }
    ensures { to.new ≡ from.now }
{
    for i in 0..from.len() {
        to[i] = from[i];
    }
}

// The number of a width at a place. The bound spares callers' sums a proof.
pub fn get<const WIDTH: usize>(s: &[u8], at: usize) -> u64
    requires { (WIDTH ≤ 3) × (at + 2 ^ WIDTH ≤ length s.now) }
    ensures { (result ≡ octets.number WIDTH s.now at) × (result < 2 ^ (8 * 2 ^ WIDTH)) }
{
    let size = size::<WIDTH>();
    let mut bytes = [0u8; 8];
    refill(&mut bytes[8 - size..], cut(s, at, size));
    u64::from_be_bytes(bytes)
}

pub fn put<const WIDTH: usize>(s: &mut [u8], at: usize, v: u64)
    requires { (WIDTH ≤ 3) × (at + 2 ^ WIDTH ≤ length s.old) × (v < 2 ^ (8 * 2 ^ WIDTH)) }
    ensures { s.new ≡ octets.put s.old at (octets.bytes WIDTH v) }
{
    let size = size::<WIDTH>();
    let bytes = v.to_be_bytes();
    refill(&mut s[at..at + size], &bytes[8 - size..]);
}

pub fn same(a: &[u8], b: &[u8]) -> bool
    ensures { result ≡ octets.same a.now b.now }
{
    a == b
}

// `votes::all_good` asks the same of 1.
pub fn zeros(s: &[u8]) -> bool
    ensures { result ≡ octets.all_zero s.now }
{
    s.iter().all(|byte| *byte == 0)
}

// Puts the bytes of src into s from at.
pub fn copy(s: &mut [u8], at: usize, src: &[u8])
    requires { at + length src.now ≤ length s.old }
    ensures { s.new ≡ octets.put s.old at src.now }
{
    s[at..at + src.len()].copy_from_slice(src);
}

// Puts n zeros into s from at.
pub fn clear(s: &mut [u8], at: usize, n: usize)
    requires { at + n ≤ length s.old }
    ensures { s.new ≡ octets.put s.old at (replicate n 0) }
{
    s[at..at + n].fill(0);
}

// A part's bytes at the front of an array, zeros behind them.
pub fn held<const N: usize>(part: &[u8]) -> [u8; N]
    requires { length part.now ≤ N }
    ensures { result ≡ octets.put (replicate N 0) 0 part.now }
{
    let mut bytes = [0; N];
    copy(&mut bytes, 0, part);
    bytes
}
