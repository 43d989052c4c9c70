// Writers. A refusal writes nothing; bytes beyond what is written stay.
#![tactic(auto)]

ghost use Rattle.std.specs.Prelude.{◌≡◌, true, ◌++◌, ◌+◌, ◌*◌, ◌/◌, ◌%◌, ◌≤◌, ◌<◌, ◌^◌, length};
ghost use Rattle.octets.specs.Octets as octets;
ghost use Rattle.wire.specs.Fields.{field};
ghost use Rattle.wire.specs.Messages.{is_payment, body_bytes};
ghost use Rattle.wire.specs.Votes.{vote_fields, certificate_bytes};
ghost use Rattle.wire.specs.Writers.{written, write_body, write_order, write_funding, write_voted, write_certificate};

use messages::body;
use octets::{FOUR, ONE, TWO};
use votes::Votes;
use wire::answers::Refusal;
use wire::kinds::{Funding, Payment};

// A field's tag and length. Tags are literals: a type for those of one byte would be made at each call. An output and a place in it stay two arguments:
// the definition is `put` of the output at that place, and a struct that lent the output would have each clause say that it is still the same one.
fn put_head(out: &mut [u8], at: usize, tag: u64, n: usize)
    requires { (at + 3 ≤ length out.old) × (tag < 256) × (n < 65536) }
    ensures { out.new ≡ octets.put out.old at (octets.bytes octets.one tag ++ octets.bytes octets.two n) }
{
    octets::put::<ONE>(out, at, tag);
    octets::put::<TWO>(out, at + 1, n as u64);
}

// A field with a number of a width.
fn put_number<const WIDTH: usize>(out: &mut [u8], at: usize, tag: u64, v: u64)
    requires { (WIDTH ≤ 3) × (at + 3 + 2 ^ WIDTH ≤ length out.old) × (tag < 256) × (v < 2 ^ (8 * 2 ^ WIDTH)) }
    ensures { out.new ≡ octets.put out.old at (field tag (octets.bytes WIDTH v)) }
{
    put_head(out, at, tag, 1 << WIDTH);
    octets::put::<WIDTH>(out, at + 3, v);
}

// A field with a kind, a number as `Payment` has it, and a number of two bytes.
fn put_recipient(out: &mut [u8], at: usize, kind: u64, number: u64)
    requires { (at + 6 ≤ length out.old) × (kind < 256) × (number < 65536) }
    ensures { out.new ≡ octets.put out.old at (field 0x02 (octets.bytes octets.one kind ++ octets.bytes octets.two number)) }
{
    put_head(out, at, 0x02, 3);
    octets::put::<ONE>(out, at + 3, kind);
    octets::put::<TWO>(out, at + 4, number);
}

// As `octets::copy`, byte by byte: the library's copy is a call here, which takes eight bytes more of stack than the bound.
fn put_bytes(out: &mut [u8], at: usize, part: &[u8])
    requires { at + length part.now ≤ length out.old }
    ensures { out.new ≡ octets.put out.old at part.now }
{
    for i in 0..part.len() {
        out[at + i] = part[i];
    }
}

// A field with bytes.
fn put_part(out: &mut [u8], at: usize, tag: u64, part: &[u8])
    requires { (at + 3 + length part.now ≤ length out.old) × (tag < 256) × (length part.now < 65536) }
    ensures { out.new ≡ octets.put out.old at (field tag part.now) }
{
    put_head(out, at, tag, part.len());
    put_bytes(out, at + 3, part);
}

// A payment in range and a note of no more than 32 bytes: `write_body` and `write_order` have both facts at hand.
fn put_body(out: &mut [u8], at: usize, payment: Payment, note: &[u8])
    requires { (at + 25 + length note.now ≤ length out.old) × (is_payment payment ≡ true) × (length note.now ≤ 32) }
    ensures { out.new ≡ octets.put out.old at (body_bytes payment note.now) }
{
    put_number::<ONE>(out, at, 0x01, payment.sender.0);
    put_recipient(out, at + 4, payment.kind, payment.recipient);
    put_number::<FOUR>(out, at + 10, 0x03, payment.amount);
    put_number::<TWO>(out, at + 17, 0x04, payment.sequence.0);
    put_part(out, at + 22, 0x05, note);
}

pub fn write_body(out: &mut [u8], payment: Payment, note: &[u8]) -> Result<usize, Refusal>
    ensures { written result out.new ≡ write_body out.old payment note.now }
{
    if !payment.in_range() {
        return Err(Refusal::OutOfRange);
    }
    if note.len() > 32 {
        return Err(Refusal::OutOfRange);
    }
    let size = 25 + note.len();
    if out.len() < size {
        return Err(Refusal::BufferTooSmall);
    }
    put_body(out, 0, payment, note);
    Ok(size)
}

pub fn write_order(
    out: &mut [u8],
    payment: Payment,
    note: &[u8],
    signature: &[u8],
) -> Result<usize, Refusal>
    ensures { written result out.new ≡ write_order out.old payment note.now signature.now }
{
    if !payment.in_range() {
        return Err(Refusal::OutOfRange);
    }
    if note.len() > 32 {
        return Err(Refusal::OutOfRange);
    }
    if signature.len() != 64 {
        return Err(Refusal::OutOfRange);
    }
    let size = 25 + note.len();
    if out.len() < size + 70 {
        return Err(Refusal::BufferTooSmall);
    }
    put_head(out, 0, 0x10, size);
    put_body(out, 3, payment, note);
    put_part(out, size + 3, 0x11, signature);
    Ok(size + 70)
}

pub fn write_funding(out: &mut [u8], funding: Funding) -> Result<usize, Refusal>
    ensures { written result out.new ≡ write_funding out.old funding }
{
    if !funding.in_range() {
        return Err(Refusal::OutOfRange);
    }
    if out.len() < 16 {
        return Err(Refusal::BufferTooSmall);
    }
    put_number::<TWO>(out, 0, 0x30, funding.index.0);
    put_number::<ONE>(out, 5, 0x31, funding.account.0);
    put_number::<FOUR>(out, 9, 0x32, funding.amount);
    Ok(16)
}

// The votes of a run, 65 bytes each, in fields from `at` on.
fn put_votes(out: &mut [u8], at: usize, run: &[u8])
    requires { (length run.now % 65 ≡ 0) × (at + 68 * (length run.now / 65) ≤ length out.old) }
    ensures { out.new ≡ octets.put out.old at (vote_fields (length run.now / 65) run.now) }
{
    // A place by the number of the vote, from `enumerate`, takes between two and three more instructions for each.
    let mut place = at;
    for vote in run.chunks_exact(votes::VOTE) {
        put_part(out, place, 0x21, vote);
        place += votes::VOTE_FIELD;
    }
}

fn put_certificate(out: &mut [u8], body: &[u8], run: &[u8])
    requires { (length body.now ≤ 57) × (length run.now % 65 ≡ 0) × (length body.now + 3 + 68 * (length run.now / 65) ≤ length out.old) }
    ensures { out.new ≡ octets.put out.old 0 (certificate_bytes body.now run.now) }
{
    put_part(out, 0, 0x20, body);
    put_votes(out, body.len() + 3, run);
}

// The votes stand in `run` one after another, 65 bytes each: machine number, 64 signature bytes.
pub fn write_certificate(f: u64, out: &mut [u8], body: &[u8], run: &[u8]) -> Result<usize, Refusal>
    ensures { written result out.new ≡ write_certificate f out.old body.now run.now }
{
    if f > 5 {
        return Err(Refusal::OutOfRange);
    }
    if run.len() % votes::VOTE != 0 {
        return Err(Refusal::Malformed);
    }
    body::read_payment(body)?;
    write_voted(f, out, body, run)
}

// The rest of the certificate writer, for an f in range, a body in order and a run of whole votes. All three are clauses: types that say them would be made once, here.
fn write_voted(f: u64, out: &mut [u8], body: &[u8], run: &[u8]) -> Result<usize, Refusal>
    requires { (f ≤ 5) × (length body.now ≤ 57) × (length run.now % 65 ≡ 0) }
    ensures { written result out.new ≡ write_voted f out.old body.now run.now }
{
    let n = run.len() / votes::VOTE;
    let votes = Votes {
        bytes: run,
        place: 0,
        step: votes::VOTE,
    };
    votes.count(f, n)?;
    let size = body.len() + 3 + votes::VOTE_FIELD * n;
    if out.len() < size {
        return Err(Refusal::BufferTooSmall);
    }
    put_certificate(out, body, run);
    Ok(size)
}
