// Funding orders: what the ledger adds to an account.
ghost use Rattle.std.specs.Prelude.{◌≡◌, true};
ghost use Rattle.wire.specs.Fields.{laid};
ghost use Rattle.wire.specs.Messages.{funding_fields, funding};
ghost use Rattle.wire.specs.Refusals.{funding_said};
ghost use Rattle.wire.specs.Readers.{read_funding};

use octets::{FOUR, ONE, TWO};
use wire::answers::Refusal;
use wire::kinds::{Account, Funding, FundingIndex};
use wire::layouts;

// The values of a funding order that has its fields, at fixed places too.
#[tactic(auto, using(crate::proofs::Places::funding_length), unfolding(wire::specs::Messages::funding))]
fn funding_in(message: &[u8]) -> Funding
    requires { laid message.now funding_fields ≡ true }
    ensures { result ≡ funding message.now }
{
    Funding {
        index: FundingIndex(octets::get::<TWO>(message, 3)),
        account: Account(octets::get::<ONE>(message, 8)),
        amount: octets::get::<FOUR>(message, 12),
    }
}

// `read_payment` has these two tests too. One function for both would take the layout, the values and their range as closures.
#[tactic(auto, unfolding(wire::specs::Readers::read_funding))]
pub fn read_funding(message: &[u8]) -> Result<Funding, Refusal>
    ensures { funding_said result ≡ read_funding message.now }
{
    if !layouts::funding_laid(message) {
        return Err(Refusal::Malformed);
    }
    let funding = funding_in(message);
    if !funding.in_range() {
        return Err(Refusal::OutOfRange);
    }
    Ok(funding)
}
