// The calls on the purchase ledger. None asks anything of its caller; a refusal changes neither state nor output.
#![tactic(auto)]

ghost use Rattle.std.specs.Prelude.{◌≡◌, true, length};
ghost use Rattle.wire.specs.Messages.{is_payment};
ghost use Rattle.states.specs.Outcomes.{outcome, fresh_said};
ghost use Rattle.ledger.specs.States.{base};
ghost use Rattle.ledger.specs.Answers.{fund_outcome, fund_said, redeem_said, pot_said, log_said};
ghost use Rattle.ledger.specs.Calls as calls;

use crate::answers::{Payout, Pot};
use crate::log::Entry;
use messages::certificate;
use states::committee::Committee;
use states::header;
use wire::answers::Refusal;
use wire::kinds;
use wire::kinds::{Account, Funding, FundingIndex, Payment, Sequence};

pub mod answers;
mod log;
pub mod state;

// A machine has a number of its own besides, and so a call of its own.
pub fn make_fresh(s: &mut [u8], committee: Committee) -> Result<(), Refusal>
    ensures { outcome (fresh_said result) s.new ≡ calls.fresh base s.old committee.faults }
{
    if s.len() != state::LENGTH {
        return Err(Refusal::BadState);
    }
    if !committee.in_range() {
        return Err(Refusal::OutOfRange);
    }
    header::write_fresh(s, committee);
    Ok(())
}

// Writes the next funding order into the first 16 bytes of the output. State and account are two arguments, as the definition has them.
pub fn fund(
    s: &mut [u8],
    out: &mut [u8],
    account: Account,
    amount: u64,
) -> Result<FundingIndex, Refusal>
    ensures { fund_outcome (fund_said result) s.new out.new ≡ calls.fund base s.old out.old account.0 amount }
{
    let Some(state) = state::open_mut(s) else {
        return Err(Refusal::BadState);
    };
    if !account.in_range() {
        return Err(Refusal::OutOfRange);
    }
    if !kinds::amount_in_range(amount) {
        return Err(Refusal::OutOfRange);
    }
    let last = header::last_index(state);
    if last.0 >= FundingIndex::LAST {
        return Err(Refusal::IndexExhausted);
    }
    if out.len() < 16 {
        return Err(Refusal::BufferTooSmall);
    }
    let pot = state::pot(state) + amount;
    if pot > state::MOST_POT {
        return Err(Refusal::BadState);
    }
    let index = FundingIndex(last.0 + 1);
    let order = Funding {
        index,
        account,
        amount,
    };
    header::put_index(state, index);
    state::put_pot(state, pot);
    // Range and room were tested: the writer does not refuse.
    let _ = writing::write_funding(out, order);
    Ok(index)
}

// A payment that a quorum voted for is paid out once. That it is in range is a clause: a type that says it would be made here and opened at once.
fn pay(s: &mut [u8; state::LENGTH], payment: Payment) -> Result<Payout, Refusal>
    requires { is_payment payment ≡ true }
    ensures { outcome (redeem_said result) s.new ≡ calls.pay base s.old payment }
{
    // The kind is a number, as `Payment` has it.
    if payment.kind != 1 {
        return Err(Refusal::NotToLedger);
    }
    let entry = Entry {
        account: payment.sender,
        sequence: payment.sequence,
    };
    if entry.is_redeemed(s) {
        return Err(Refusal::AlreadyRedeemed);
    }
    let pot = state::pot(s);
    let amount = payment.amount;
    if pot < amount {
        return Err(Refusal::PotTooLow);
    }
    entry.redeem(s);
    state::put_pot(s, pot - amount);
    Ok(Payout {
        account: payment.recipient,
        amount,
    })
}

pub fn redeem(s: &mut [u8], message: &[u8], verdicts: &[u8]) -> Result<Payout, Refusal>
    ensures { outcome (redeem_said result) s.new ≡ calls.redeem base s.old message.now verdicts.now }
{
    let Some(state) = state::open_mut(s) else {
        return Err(Refusal::BadState);
    };
    let committee = header::committee(state);
    let certified = certificate::judge_certificate(committee.faults, message, verdicts)?;
    pay(state, certified.payment)
}

pub fn read_pot(s: &[u8]) -> Result<Pot, Refusal>
    ensures { pot_said result ≡ calls.read_pot base s.now }
{
    let Some(state) = state::open(s) else {
        return Err(Refusal::BadState);
    };
    Ok(Pot {
        index: header::last_index(state),
        amount: state::pot(state),
    })
}

// Whether the payment of an account under a sequence was redeemed.
pub fn read_log(s: &[u8], account: Account, sequence: Sequence) -> Result<bool, Refusal>
    ensures { log_said result ≡ calls.read_log base s.now account.0 sequence.0 }
{
    let Some(state) = state::open(s) else {
        return Err(Refusal::BadState);
    };
    if !account.in_range() {
        return Err(Refusal::OutOfRange);
    }
    if !sequence.in_range() {
        return Err(Refusal::OutOfRange);
    }
    let entry = Entry { account, sequence };
    Ok(entry.is_redeemed(state))
}
