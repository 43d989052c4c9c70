// Orders: a vote for the body, or a refusal.
#![tactic(auto)]

ghost use Rattle.std.specs.Prelude.{◌≡◌, true, ◌≤◌, length};
ghost use Rattle.wire.specs.Messages.{is_payment};
ghost use Rattle.states.specs.Outcomes.{outcome};
ghost use Rattle.records.specs.States.{base};
ghost use Rattle.records.specs.Answers.{order_said};
ghost use Rattle.records.specs.Calls as calls;

use messages::order;
use octets::TWO;
use records::answers::Vote;
use records::record::Record;
use records::state;
use wire::answers::Refusal;
use wire::kinds::Payment;

// An order with a good verdict: a vote for its body, or a refusal. That the payment is in range and how long a body can be are clauses: types that
// say them would be made here and opened at once.
#[tactic(auto, using(wire::proofs::Ranges::payment_range, records::proofs::Facts::formed_fits, records::proofs::Facts::fits_holding), unfolding(records::specs::Calls::vote, records::specs::Calls::vote_on))]
fn vote(s: &mut [u8; state::LENGTH], payment: Payment, body: &[u8]) -> Result<Vote, Refusal>
    requires { (is_payment payment ≡ true) × (length body.now ≤ 57) }
    ensures { outcome (order_said result) s.new ≡ calls.vote base s.old payment body.now }
{
    let sender = payment.sender;
    if !Record::formed(s, sender) {
        return Err(Refusal::BadState);
    }
    let record = Record::read(s, sender);
    if !record.used {
        return Err(Refusal::SenderNotInUse);
    }
    if 0 < record.waiting {
        // `same` is the definition's word.
        if !octets::same(Record::pending(s, sender), body) {
            return Err(Refusal::AnotherPending);
        }
        return Ok(Vote::Repeated);
    }
    if payment.sequence.0 != record.next.0 {
        return Err(Refusal::NotNextSequence);
    }
    if record.balance < Record::NOUGHT + payment.amount {
        return Err(Refusal::BalanceTooLow);
    }
    record.holding(body).write(s, sender);
    Ok(Vote::New)
}

#[tactic(auto, unfolding(records::specs::Calls::order))]
pub fn handle_order(s: &mut [u8], message: &[u8], verdicts: &[u8]) -> Result<Vote, Refusal>
    ensures { outcome (order_said result) s.new ≡ calls.order base s.old message.now verdicts.now }
{
    let Some(state) = state::open_mut(s) else {
        return Err(Refusal::BadState);
    };
    let payment = order::order_payment(message)?;
    if verdicts.len() != 1 {
        return Err(Refusal::VerdictCount);
    }
    if !votes::all_good(verdicts) {
        return Err(Refusal::BadVerdict);
    }
    let size = octets::get::<TWO>(message, 1) as usize;
    vote(state, payment, octets::cut(message, 3, size))
}
