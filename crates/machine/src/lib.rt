// The calls on a settlement machine. None asks anything of its caller; a refusal changes nothing. A message and the host's verdicts on it stay two
// arguments: they come from two places, and the definitions take both.
#![tactic(auto)]

ghost use Rattle.std.specs.Prelude.{◌≡◌, true};
ghost use Rattle.wire.specs.Messages.{is_funding};
ghost use Rattle.states.specs.Outcomes.{outcome, fresh_said};
ghost use Rattle.records.specs.States.{base};
ghost use Rattle.records.specs.Answers.{credit_said, account_shown, standing_said};
ghost use Rattle.records.specs.Calls as calls;

use messages::{funding, order};
use octets::TWO;
use records::answers::{Reading, StandingAnswer};
use records::record::Record;
use records::{balance, state};
pub use settling::handle_certificate;
use states::committee::Committee;
use states::header;
pub use voting::handle_order;
use wire::answers::{Refusal, Stretch};
use wire::kinds::{Account, Funding, Machine};

#[tactic(auto, unfolding(records::specs::Calls::fresh))]
pub fn make_fresh(s: &mut [u8], committee: Committee, own: Machine) -> Result<(), Refusal>
    ensures { outcome (fresh_said result) s.new ≡ calls.fresh base s.old committee.faults own.0 }
{
    let Some(state) = s.as_mut_array() else {
        return Err(Refusal::BadState);
    };
    if !committee.seats(own) {
        return Err(Refusal::OutOfRange);
    }
    state::write_fresh(state, committee, own);
    Ok(())
}

// A funding order with a good verdict: the account is credited if the index is the next.
#[tactic(auto, using(wire::proofs::Ranges::funding_range, records::proofs::Facts::formed_fits, records::proofs::Facts::fits_credited), unfolding(records::specs::Calls::credit, records::specs::Calls::credit_on))]
fn credit(s: &mut [u8; state::LENGTH], funding: Funding) -> Result<(), Refusal>
    requires { is_funding funding ≡ true }
    ensures { outcome (credit_said result) s.new ≡ calls.credit base s.old funding }
{
    let account = funding.account;
    if !Record::formed(s, account) {
        return Err(Refusal::BadState);
    }
    let record = Record::read(s, account);
    if funding.index.0 != header::last_index(s).0 + 1 {
        return Err(Refusal::NotNextIndex);
    }
    if record.balance + funding.amount > Record::HIGHEST {
        return Err(Refusal::BadState);
    }
    header::put_index(s, funding.index);
    record.credited(funding.amount).write(s, account);
    Ok(())
}

// An order has these two tests of its verdict too: each call shows its refusals in their order.
#[tactic(auto, unfolding(records::specs::Calls::funding_order))]
pub fn handle_funding(s: &mut [u8], message: &[u8], verdicts: &[u8]) -> Result<(), Refusal>
    ensures { outcome (credit_said result) s.new ≡ calls.funding_order base s.old message.now verdicts.now }
{
    let Some(state) = state::open_mut(s) else {
        return Err(Refusal::BadState);
    };
    let funding = funding::read_funding(message)?;
    if verdicts.len() != 1 {
        return Err(Refusal::VerdictCount);
    }
    if !votes::all_good(verdicts) {
        return Err(Refusal::BadVerdict);
    }
    credit(state, funding)
}

// State and account are two arguments, as the definition has them.
#[tactic(auto, unfolding(records::specs::Calls::account))]
pub fn read_account(s: &[u8], account: Account) -> Result<Reading, Refusal>
    ensures { account_shown result ≡ calls.account base s.now account.0 }
{
    let Some(state) = state::open(s) else {
        return Err(Refusal::BadState);
    };
    if !account.in_range() {
        return Err(Refusal::OutOfRange);
    }
    if !Record::formed(state, account) {
        return Err(Refusal::BadState);
    }
    let record = Record::read(state, account);
    Ok(Reading {
        used: record.used,
        next: record.next,
        balance: balance::signed(record.balance),
        free: balance::free(record.balance),
    })
}

// Where the body that stands for an order's sender lies: the one pending in the state, otherwise the message's own.
#[tactic(auto, unfolding(records::specs::Calls::standing_at, records::specs::Calls::standing_on_at))]
pub fn standing_at(message: &[u8], s: &[u8]) -> StandingAnswer
    ensures { standing_said result ≡ calls.standing_at base message.now s.now }
{
    // An empty part of the message: the definition that is promised has no case for none.
    let nowhere = StandingAnswer::InMessage(Stretch {
        place: 0,
        length: 0,
    });
    let Some(state) = state::open(s) else {
        return nowhere;
    };
    let Ok(payment) = order::order_payment(message) else {
        return nowhere;
    };
    let sender = payment.sender;
    if !Record::formed(state, sender) {
        return nowhere;
    }
    let length = Record::pending(state, sender).len();
    if 0 < length {
        let place = Record::place(sender) + Record::HEAD;
        return StandingAnswer::InState(Stretch { place, length });
    }
    StandingAnswer::InMessage(Stretch {
        place: 3,
        length: octets::get::<TWO>(message, 1) as usize,
    })
}

// The body itself, uncopied.
pub fn standing_body<'a>(message: &'a [u8], s: &'a [u8]) -> &'a [u8]
    ensures { result.now ≡ calls.standing base message.now s.now }
{
    match standing_at(message, s) {
        StandingAnswer::InMessage(at) => octets::cut(message, at.place, at.length),
        StandingAnswer::InState(at) => octets::cut(s, at.place, at.length),
    }
}
