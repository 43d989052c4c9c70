// What messages say, and messages that were written, printed as in `wording`.
#![tactic(auto)]

ghost use Rattle.std.specs.Prelude.{◌≡◌, cond, eqb, ◌+◌, ◌*◌, ◌<◌, length};
ghost use Rattle.wire.specs.Refusals.{payment_values, funding_said};
ghost use Rattle.wire.specs.Readers.{body_shown, order_shown};
ghost use Rattle.wire.specs.Writers.{written};
ghost use Rattle.wire.specs.Votes.{signers};
ghost use Rattle.text.specs.Ascii.{ascii};
ghost use Rattle.text.specs.Pages.{Says};
ghost use Rattle.papers.specs.Papers as papers;

use refusals::refused;
use text::page::{Page, up_to};
use wire::answers::{Body, Order, Refusal};
use wire::kinds::{Funding, Note, Payment};

// The answer of a writer, and what it wrote into.
pub fn wrote(page: &mut Page, answer: Result<usize, Refusal>, bytes: &[u8])
    ensures { Says page.old page.new (papers.written_text (written answer bytes.now)) }
{
    match answer {
        Ok(n) => page.say_hexadecimal(up_to(bytes, n)),
        Err(refusal) => refused(page, refusal),
    }
}

// The kind as `Payment` has it.
#[tactic(auto, using(std::proofs::lemmas::Bool::Decides::nat_tests), unfolding(text::specs::Ascii::ascii))]
fn pays(page: &mut Page, kind: u64)
    ensures { Says page.old page.new (cond (eqb kind 0) (ascii " pays account ") (ascii " pays ledger account ")) }
{
    match kind {
        0 => page.say(b" pays account "),
        _ => page.say(b" pays ledger account "),
    }
}

fn payment(page: &mut Page, payment: Payment)
    ensures { Says page.old page.new (papers.payment_text (payment_values payment)) }
{
    page.say_numbered(b"account ", payment.sender.0);
    pays(page, payment.kind);
    page.say_decimal(payment.recipient);
    page.say_numbered(b", amount ", payment.amount);
    page.say_numbered(b", sequence ", payment.sequence.0);
}

fn note(page: &mut Page, note: Note)
    ensures { Says page.old page.new (papers.note_text note) }
{
    if note.length == 0 {
        return page.say(b", no note");
    }
    page.say(b", note ");
    page.say_hexadecimal(up_to(&note.bytes, note.length));
}

pub fn body(page: &mut Page, read: Result<Body, Refusal>)
    ensures { Says page.old page.new (papers.body_text (body_shown read)) }
{
    match read {
        Ok(body) => {
            page.say(b"body: ");
            payment(page, body.payment);
            note(page, body.note);
        }
        Err(refusal) => refused(page, refusal),
    }
}

pub fn order(page: &mut Page, read: Result<Order, Refusal>)
    ensures { Says page.old page.new (papers.order_read_text (order_shown read)) }
{
    match read {
        Ok(order) => {
            page.say(b"order: ");
            payment(page, order.payment);
            note(page, order.note);
            page.say(b", signature ");
            page.say_hexadecimal(&order.signature);
        }
        Err(refusal) => refused(page, refusal),
    }
}

// The machines of n votes, the first at `place` and each 68 bytes behind the one before. By place, as the definition `signers` has them.
fn machines(page: &mut Page, message: &[u8], place: usize, n: usize)
    requires { place + 68 * n < length message.now + 68 }
    ensures { Says page.old page.new (papers.machines_named (signers message.now place 68 n)) }
{
    for i in 0..n {
        page.say_numbered(b" ", message[place + 68 * i] as u64);
    }
}

// A certificate that was accepted: what its body says, and its votes.
pub fn certificate(page: &mut Page, message: &[u8], body: Body, place: usize, votes: usize)
    requires { place + 68 * votes < length message.now + 68 }
    ensures { Says page.old page.new (papers.certified_text (payment_values body.payment) body.note (signers message.now place 68 votes)) }
{
    page.say(b"certificate: ");
    payment(page, body.payment);
    note(page, body.note);
    page.say(b", votes by");
    machines(page, message, place, votes);
}

pub fn funding(page: &mut Page, answer: Result<Funding, Refusal>)
    ensures { Says page.old page.new (papers.funding_read_text (funding_said answer)) }
{
    match answer {
        Ok(funding) => {
            page.say_numbered(b"funding order ", funding.index.0);
            page.say_numbered(b": account ", funding.account.0);
            page.say_numbered(b", amount ", funding.amount);
        }
        Err(refusal) => refused(page, refusal),
    }
}
