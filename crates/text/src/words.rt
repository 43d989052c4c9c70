// The words of a line, uncopied, and what they mean.
ghost use Rattle.std.specs.Prelude.{◌≡◌, true, ◌≤◌, ◌<◌, ◌+◌, ◌*◌, ◌%◌, length, drop};
ghost use Rattle.octets.specs.Octets.{put, cut};
ghost use Rattle.text.specs.Words as words;

// What a word means that is no number.
pub const NO_NUMBER: u64 = u64::MAX;

// The longest line, and how many bytes its digits can mean.
pub const LINE: usize = 4096;

pub const BYTES: usize = 2048;

fn is_blank(byte: u8) -> bool
    ensures { result ≡ words.is_blank byte }
{
    matches!(byte, b' ' | b'\t' | b'\r')
}

fn is_kind(blank: bool, byte: u8) -> bool
    ensures { result ≡ words.is_kind blank byte }
{
    is_blank(byte) == blank
}

// How many bytes at the front are blanks, or are none.
fn leading(blank: bool, s: &[u8]) -> usize
    ensures { (result ≡ words.leading blank s.now) × (result ≤ length s.now) }
{
    s.iter()
        .position(|byte| !is_kind(blank, *byte))
        .unwrap_or(s.len())
}

// The bytes from n on.
fn from(s: &[u8], n: usize) -> &[u8]
    requires { n ≤ length s.now }
    ensures { result.now ≡ drop n s.now }
{
    octets::cut(s, n, s.len() - n)
}

fn unblanked(line: &[u8]) -> &[u8]
    ensures { result.now ≡ words.unblanked line.now }
{
    from(line, leading(true, line))
}

fn first_word(line: &[u8]) -> &[u8]
    ensures { result.now ≡ words.first_word line.now }
{
    let s = unblanked(line);
    octets::cut(s, 0, leading(false, s))
}

fn behind_word(line: &[u8]) -> &[u8]
    ensures { result.now ≡ words.behind_word line.now }
{
    let s = unblanked(line);
    from(s, leading(false, s))
}

// The word of a line, counted from 0; empty where it has not so many.
pub fn word(line: &[u8], k: usize) -> &[u8]
    ensures { result.now ≡ words.word_at k line.now }
{
    if k == 0 {
        return first_word(line);
    }
    word(behind_word(line), k - 1)
}

// Whether a line has n words. Of 0 the answer is no, even of an empty line.
pub fn has_words(line: &[u8], n: usize) -> bool
    ensures { result ≡ words.has_words n line.now }
{
    if n == 0 {
        return false;
    }
    if word(line, n - 1).is_empty() {
        return false;
    }
    word(line, n).is_empty()
}

// A word of decimal digits as a number. It has no more than eighteen of them, leading zeros apart. By hand and not by `parse`, as hexadecimal digits
// below: what a word means is promised.
pub fn decimal(word: &[u8]) -> Option<u64>
    ensures { result ≡ words.decimal_of word.now }
{
    if word.is_empty() {
        return None;
    }
    let mut value = 0;
    for byte in word {
        if !byte.is_ascii_digit() {
            return None;
        }
        if 100_000_000_000_000_000 <= value {
            return None;
        }
        value = value * 10 + (*byte - b'0') as u64;
    }
    Some(value)
}

// The same, or NO_NUMBER: a line says of such a word that it is out of every range.
pub fn number(word: &[u8]) -> u64
    ensures { result ≡ words.number_of word.now }
{
    decimal(word).unwrap_or(NO_NUMBER)
}

// The value of a hexadecimal digit.
fn nibble(c: u8) -> Option<u8>
    ensures { result ≡ words.nibble_of c }
{
    match c {
        b'0'..=b'9' => Some(c - b'0'),
        b'A'..=b'F' => Some(c - b'A' + 10),
        b'a'..=b'f' => Some(c - b'a' + 10),
        _ => None,
    }
}

fn are_digits(word: &[u8]) -> bool
    ensures { result ≡ words.are_digits word.now }
{
    word.iter().all(|c| nibble(*c).is_some())
}

// `same`, as in the definition.
fn is_stroke(word: &[u8]) -> bool
    ensures { result ≡ words.is_stroke word.now }
{
    octets::same(word, b"-")
}

// Whether a word means bytes: hexadecimal digits in pairs, or one stroke for none.
pub fn is_bytes(word: &[u8]) -> bool
    ensures { result ≡ words.is_bytes word.now }
{
    if is_stroke(word) {
        return true;
    }
    if word.len() % 2 != 0 {
        return false;
    }
    are_digits(word)
}

// The byte that two digits mean.
fn pair(high: u8, low: u8) -> u8
    requires { (words.nibble high < 16) × (words.nibble low < 16) }
    ensures { result ≡ words.nibble high * 16 + words.nibble low }
{
    nibble(high).unwrap() * 16 + nibble(low).unwrap()
}

// Puts the bytes that pairs of digits mean at the start of out, since there is no heap, and answers how many there are.
fn unhex(out: &mut [u8], word: &[u8]) -> usize
    requires { (words.are_digits word.now ≡ true) × (length word.now % 2 ≡ 0) × (length word.now ≤ 2 * length out.old) }
    ensures { (out.new ≡ put out.old 0 (words.unhexed word.now)) × (result ≡ length (words.unhexed word.now)) × (result ≤ length out.old) }
{
    // By index: over `out` and `chunks_exact(2)` in step, `pair-requires` did not prove.
    let n = word.len() / 2;
    for i in 0..n {
        out[i] = pair(word[2 * i], word[2 * i + 1]);
    }
    n
}

// Puts the bytes that a word means at the start of out, and answers how many there are: there is no heap. The last two facts spare callers a proof.
pub fn read_bytes(out: &mut [u8], word: &[u8]) -> usize
    requires { (words.is_bytes word.now ≡ true) × (length word.now ≤ 2 * length out.old) }
    ensures { (out.new ≡ put out.old 0 (words.bytes_of word.now)) × (cut out.new 0 result ≡ words.bytes_of word.now) × (result ≤ length out.new) }
{
    if is_stroke(word) {
        return 0;
    }
    unhex(out, word)
}

// Where the first line ends: the place of its line feed, or the length where there is none, as in the definition.
pub fn line_end(s: &[u8]) -> usize
    ensures { (result ≡ words.line_end s.now) × (result ≤ length s.now) }
{
    s.iter().position(|byte| *byte == b'\n').unwrap_or(s.len())
}

// What stands behind the first line and its line feed.
fn behind_line(s: &[u8]) -> &[u8]
    ensures { result.now ≡ words.behind_line s.now }
{
    let end = line_end(s);
    if end == s.len() {
        return from(s, end);
    }
    from(s, end + 1)
}

// The line of a text, counted from 0; empty where it has not so many. One function over lines and words would take how a piece ends and what
// stands behind it as two closures.
pub fn line_at(s: &[u8], k: usize) -> &[u8]
    ensures { result.now ≡ words.line_at k s.now }
{
    if k == 0 {
        return octets::cut(s, 0, line_end(s));
    }
    line_at(behind_line(s), k - 1)
}
