// The number of each answer.
ghost use Rattle.std.specs.Prelude.{◌≡◌, ℕ, ◌+◌, ◌*◌, ◌<◌, List, [], ◌∷◌, cond};
ghost use Rattle.wire.specs.Refusals.{said};
ghost use Rattle.records.specs.Answers.{vote_values, confirmation_values, standing_said};
ghost use Rattle.desk.specs.Layout.{beside, no_bits, order_bits, certificate_bits, fund_bits, redeem_bits, log_bits, written_bits, stretch_bits, packed, Fit};

use ledger::answers::Payout;
use records::answers::{Confirmation, StandingAnswer, Vote};
use wire::answers::{Refusal, Stretch};
use wire::kinds::FundingIndex;

// The values of an answer side by side in one number, the first lowest, each in its bits.
pub(crate) trait SideBySide {
    ghost bits: { List ℕ };

    ghost values: { Self → List ℕ };

    fn side_by_side(self) -> u64
        requires { Fit bits (values self) }
        ensures { (result ≡ beside bits (values self)) × (result < 72057594037927936) };
}

// The number of an answer: its values above the lowest byte, or its refusal in it.
pub(crate) fn of<T: SideBySide>(answer: Result<T, Refusal>) -> u64
    requires { Fit T.bits (said T.values answer).values }
    ensures { result ≡ packed T.bits (said T.values answer) }
{
    match answer {
        Ok(values) => 256 * values.side_by_side(),
        Err(refusal) => refusal.number(),
    }
}

impl SideBySide for () {
    ghost bits = { no_bits };

    ghost values = { λ _. [] };

    fn side_by_side(self) -> u64 {
        0
    }
}

// The numbers are the layout's, and not the vote's own.
impl SideBySide for Vote {
    ghost bits = { order_bits };

    ghost values = { vote_values };

    fn side_by_side(self) -> u64 {
        match self {
            Vote::New => 0,
            Vote::Repeated => 1,
        }
    }
}

impl SideBySide for Confirmation {
    ghost bits = { certificate_bits };

    ghost values = { confirmation_values };

    fn side_by_side(self) -> u64 {
        match self {
            Confirmation::Confirmed(votes) => 256 * votes,
            Confirmation::Already(votes) => 1 + 256 * votes,
        }
    }
}

impl SideBySide for FundingIndex {
    ghost bits = { fund_bits };

    ghost values = { λ index. index.0 ∷ [] };

    fn side_by_side(self) -> u64 {
        self.0
    }
}

impl SideBySide for Payout {
    ghost bits = { redeem_bits };

    ghost values = { λ payout. payout.account ∷ payout.amount ∷ [] };

    fn side_by_side(self) -> u64 {
        self.account + 65536 * self.amount
    }
}

// Whether a sequence is in the log.
impl SideBySide for bool {
    ghost bits = { log_bits };

    ghost values = { λ redeemed. cond redeemed 1 0 ∷ [] };

    fn side_by_side(self) -> u64 {
        u64::from(self)
    }
}

// How many bytes were written.
impl SideBySide for usize {
    ghost bits = { written_bits };

    ghost values = { λ n. n ∷ [] };

    fn side_by_side(self) -> u64 {
        self as u64
    }
}

impl SideBySide for StandingAnswer {
    ghost bits = { stretch_bits };

    ghost values = { λ answer. (standing_said answer).values };

    fn side_by_side(self) -> u64 {
        match self {
            StandingAnswer::InMessage(at) => 256 * place_and_length(at),
            StandingAnswer::InState(at) => 1 + 256 * place_and_length(at),
        }
    }
}

fn place_and_length(at: Stretch) -> u64
    requires { (at.place < 65536) × (at.length < 65536) }
    ensures { result ≡ at.place + 65536 * at.length }
{
    at.place as u64 + 65536 * (at.length as u64)
}
