// Bodies: what one depot pays another.
ghost use Rattle.std.specs.Prelude.{◌≡◌, true, ◌≤◌, length};
ghost use Rattle.wire.specs.Fields.{laid};
ghost use Rattle.wire.specs.Messages.{body_fields, payment};
ghost use Rattle.wire.specs.Refusals.{body_said};
ghost use Rattle.wire.specs.Readers.{read_payment, note_held, body_shown, read_body};

use octets::{FOUR, ONE, TWO};
use wire::answers::{Body, Refusal};
use wire::kinds::{Account, Note, Payment, Sequence};
use wire::layouts;

// The values of a body that has its fields: they stand at fixed places.
#[tactic(auto, using(crate::proofs::Places::body_least), unfolding(wire::specs::Messages::payment))]
pub(crate) fn payment_in(body: &[u8]) -> Payment
    requires { laid body.now body_fields ≡ true }
    ensures { result ≡ payment body.now }
{
    Payment {
        sender: Account(octets::get::<ONE>(body, 3)),
        kind: octets::get::<ONE>(body, 7),
        recipient: octets::get::<TWO>(body, 8),
        amount: octets::get::<FOUR>(body, 13),
        sequence: Sequence(octets::get::<TWO>(body, 20)),
    }
}

// The payment that a body says, without its note.
#[tactic(auto, unfolding(wire::specs::Readers::read_payment))]
pub fn read_payment(body: &[u8]) -> Result<Payment, Refusal>
    ensures { body_said result ≡ read_payment body.now }
{
    if !layouts::body_laid(body) {
        return Err(Refusal::Malformed);
    }
    let payment = payment_in(body);
    if !payment.in_range() {
        return Err(Refusal::OutOfRange);
    }
    Ok(payment)
}

// A part of at most 32 bytes as a note.
pub(crate) fn note_of(part: &[u8]) -> Note
    requires { length part.now ≤ 32 }
    ensures { result ≡ note_held part.now }
{
    Note {
        length: part.len(),
        bytes: octets::held::<32>(part),
    }
}

pub fn read_body(message: &[u8]) -> Result<Body, Refusal>
    ensures { body_shown result ≡ read_body message.now }
{
    let payment = read_payment(message)?;
    Ok(Body {
        payment,
        note: note_of(octets::cut(message, 25, message.len() - 25)),
    })
}
