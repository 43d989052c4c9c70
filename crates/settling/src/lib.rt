// Certificates: the payment is confirmed, or it was already, or a refusal.
#![tactic(auto)]

ghost use Rattle.std.specs.Prelude.{◌≡◌, true, ◌||◌, [], ◌∷◌, ◌≤◌, eqb};
ghost use Rattle.wire.specs.Messages.{is_payment};
ghost use Rattle.states.specs.Outcomes.{outcome};
ghost use Rattle.records.specs.Records.{Fits};
ghost use Rattle.records.specs.States.{base, record_of, is_formed};
ghost use Rattle.records.specs.Answers.{confirm_said};
ghost use Rattle.records.specs.Calls as calls;

use messages::certificate;
use records::answers::Confirmation;
use records::record::Record;
use records::state;
use states::header;
use wire::answers::Refusal;
use wire::kinds::{Account, Payment};

// Whether a payment goes from an account to itself. The kind is a number, as `Payment` has it.
fn to_itself(payment: Payment) -> bool
    ensures { result ≡ calls.to_itself payment }
{
    payment.kind == 0 && payment.recipient == payment.sender.0
}

// A certificate of the next sequence: the sender is debited, an account that it pays is credited.
#[tactic(auto, using(wire::proofs::Ranges::payment_range, records::proofs::Facts::formed_fits, records::proofs::Facts::fits_paid, records::proofs::Facts::fits_credited), unfolding(records::specs::Calls::pay))]
fn pay(
    s: &mut [u8; state::LENGTH],
    payment: Payment,
    votes: u64,
    from: Record,
) -> Result<Confirmation, Refusal>
    requires { (is_payment payment ≡ true) × (from.next.0 ≤ 4095) × Fits from × ((eqb payment.kind 1 || is_formed base s.old payment.recipient) ≡ true) }
    ensures { outcome (confirm_said result) s.new ≡ calls.pay base s.old payment (votes ∷ []) from (record_of base s.old payment.recipient) }
{
    let sender = payment.sender;
    let amount = payment.amount;
    if to_itself(payment) {
        from.paid(0).write(s, sender);
        return Ok(Confirmation::Confirmed(votes));
    }
    if from.balance < amount {
        return Err(Refusal::BadState);
    }
    if payment.kind == 1 {
        from.paid(amount).write(s, sender);
        return Ok(Confirmation::Confirmed(votes));
    }
    let recipient = Account(payment.recipient);
    let to = Record::read(s, recipient);
    if to.balance + amount > Record::HIGHEST {
        return Err(Refusal::BadState);
    }
    let payer = from.paid(amount);
    let payee = to.credited(amount);
    payer.write(s, sender);
    payee.write(s, recipient);
    Ok(Confirmation::Confirmed(votes))
}

// Whether the recipient's record, if the payment touches one, is well formed.
#[tactic(auto, using(wire::proofs::Ranges::payment_range))]
fn recipient_formed(s: &[u8; state::LENGTH], payment: Payment) -> bool
    requires { is_payment payment ≡ true }
    ensures { result ≡ (eqb payment.kind 1 || is_formed base s.now payment.recipient) }
{
    payment.kind == 1 || Record::formed(s, Account(payment.recipient))
}

// A payment that a quorum voted for is confirmed, whatever the balance. That it is in range is a clause, as in `voting`.
#[tactic(auto, using(wire::proofs::Ranges::payment_range, records::proofs::Facts::formed_fits), unfolding(records::specs::Calls::settle, records::specs::Calls::settle_on))]
fn settle(
    s: &mut [u8; state::LENGTH],
    payment: Payment,
    votes: u64,
) -> Result<Confirmation, Refusal>
    requires { is_payment payment ≡ true }
    ensures { outcome (confirm_said result) s.new ≡ calls.settle base s.old payment (votes ∷ []) }
{
    let sender = payment.sender;
    if !Record::formed(s, sender) {
        return Err(Refusal::BadState);
    }
    if !recipient_formed(s, payment) {
        return Err(Refusal::BadState);
    }
    let from = Record::read(s, sender);
    let sequence = payment.sequence.0;
    let next = from.next.0;
    if sequence < next {
        return Ok(Confirmation::Already(votes));
    }
    if sequence != next {
        return Err(Refusal::NotNextSequence);
    }
    pay(s, payment, votes, from)
}

#[tactic(auto, unfolding(records::specs::Calls::certificate))]
pub fn handle_certificate(
    s: &mut [u8],
    message: &[u8],
    verdicts: &[u8],
) -> Result<Confirmation, Refusal>
    ensures { outcome (confirm_said result) s.new ≡ calls.certificate base s.old message.now verdicts.now }
{
    let Some(state) = state::open_mut(s) else {
        return Err(Refusal::BadState);
    };
    let committee = header::committee(state);
    let certified = certificate::judge_certificate(committee.faults, message, verdicts)?;
    settle(state, certified.payment, certified.machines)
}
