// Certificates: a body and the votes of a quorum.
ghost use Rattle.std.specs.Prelude.{◌≡◌, true};
ghost use Rattle.wire.specs.Fields.{laid};
ghost use Rattle.wire.specs.Messages.{body_fields, payment, certificate_fields, inside};
ghost use Rattle.wire.specs.Refusals.{certificate_said};
ghost use Rattle.wire.specs.Readers.{read_certificate, judged, count_of};
ghost use Rattle.votes.specs.Tally.{votes_said};
ghost use Rattle.messages.specs.Opening.{Opens};

use crate::{body, order};
use votes::Votes;
use wire::answers::{Certified, Refusal};
use wire::kinds::Payment;
use wire::layouts;

// The payment inside a certificate that has its fields.
#[tactic(auto, using(crate::proofs::Places::certificate_whole))]
pub fn payment(message: &[u8]) -> Payment
    requires { (laid message.now certificate_fields ≡ true) × (laid (inside message.now) body_fields ≡ true) }
    ensures { result ≡ payment (inside message.now) }
{
    body::payment_in(order::enclosed(message))
}

// A certificate that has its fields: its body, where its votes stand, and how many they are.
#[derive(Clone, Copy)]
struct Opened<'a> {
    body: &'a [u8],
    votes: Votes<'a>,
    number: usize,
}

// What the reader and the judge begin with.
fn open_certificate(f: u64, message: &[u8]) -> Result<Opened<'_>, Refusal>
    ensures { Opens f message.entry result }
{
    if f > 5 {
        return Err(Refusal::OutOfRange);
    }
    let Some(end) = layouts::certificate_end(message) else {
        return Err(Refusal::Malformed);
    };
    Ok(Opened {
        body: octets::cut(message, 3, end - 3),
        votes: Votes {
            bytes: message,
            place: end + 3,
            step: votes::VOTE_FIELD,
        },
        number: (message.len() - end) / votes::VOTE_FIELD,
    })
}

// The certificate reader judges no verdicts. f and the message are two arguments, as the definitions have them.
pub fn read_certificate(f: u64, message: &[u8]) -> Result<Certified, Refusal>
    ensures { certificate_said result ≡ read_certificate f message.now }
{
    let opened = open_certificate(f, message)?;
    let payment = body::read_payment(opened.body)?;
    let machines = opened.votes.count(f, opened.number)?;
    Ok(Certified { payment, machines })
}

// A certificate judged with the host's verdicts on its votes, one for each: how many machines voted, without the payment.
pub fn judge(f: u64, message: &[u8], verdicts: &[u8]) -> Result<u64, Refusal>
    ensures { votes_said result ≡ count_of (judged f message.now verdicts.now) }
{
    let opened = open_certificate(f, message)?;
    // The lines of `read_payment`: a call of it takes 33 instructions more.
    if !layouts::body_laid(opened.body) {
        return Err(Refusal::Malformed);
    }
    let payment = body::payment_in(opened.body);
    if !payment.in_range() {
        return Err(Refusal::OutOfRange);
    }
    if verdicts.len() != opened.number {
        return Err(Refusal::VerdictCount);
    }
    opened.votes.judge(f, verdicts)
}

// The same with the payment.
pub fn judge_certificate(f: u64, message: &[u8], verdicts: &[u8]) -> Result<Certified, Refusal>
    ensures { certificate_said result ≡ judged f message.now verdicts.now }
{
    let machines = judge(f, message, verdicts)?;
    Ok(Certified {
        payment: payment(message),
        machines,
    })
}
