// The whole state: 32,784 bytes, of which the first sixteen are the header.
ghost use Rattle.std.specs.Prelude.{◌≡◌, true, false, MatchOption};
ghost use Rattle.std.specs.Borrow.{sem, LendsIf, Array, u8};
ghost use Rattle.ledger.specs.States as ledger;
ghost use Rattle.ledger.specs.States.{base};

use octets::{EIGHT, ONE};
use states::header;

pub const LENGTH: usize = 32784;

// Where the logs start, and how long each is.
pub(crate) const LOGS: usize = 16;

pub(crate) const LOG: usize = 512;

pub(crate) const MOST_POT: u64 = 1_000_000_000_000_000;

// Whether length and header are as they should be.
#[tactic(auto, unfolding(crate::specs::States::is_state, crate::specs::States::is_base_header))]
pub fn formed(s: &[u8]) -> bool
    ensures { result ≡ ledger.is_state base s.now }
{
    s.len() == LENGTH
        && header::committee(s).in_range()
        && octets::get::<ONE>(s, 1) == 0
        && octets::get::<EIGHT>(s, 4) <= MOST_POT
        && octets::zeros(octets::cut(s, 12, 4))
}

// The state in these bytes, if length and header are as they should be: lent as they are, or to be written.
pub(crate) fn open(s: &[u8]) -> Option<&[u8; LENGTH]>
    ensures { MatchOption result (ledger.is_state base s.now ≡ false) (λ state. (state.now ≡ s.now) × (ledger.is_state base state.now ≡ true)) }
{
    if !formed(s) {
        return None;
    }
    s.as_array()
}

pub(crate) fn open_mut(s: &mut [u8]) -> Option<&mut [u8; LENGTH]>
    ensures value { MatchOption result (ledger.is_state base s.old ≡ false) (λ state. (state.now ≡ s.old) × (ledger.is_state base state.now ≡ true)) }
    ensures* writes_back { sem 𝓛 (LendsIf (Array u8 0) (Array u8 0) s.entry result (λ bytes. bytes) s.old) }
{
    if !formed(s) {
        return None;
    }
    s.as_mut_array()
}

pub(crate) fn pot(s: &[u8; LENGTH]) -> u64
    ensures { result ≡ ledger.pot s.now }
{
    octets::get::<EIGHT>(s, 4)
}

pub(crate) fn put_pot(s: &mut [u8; LENGTH], amount: u64)
    ensures { s.new ≡ ledger.with_pot s.old amount }
{
    octets::put::<EIGHT>(s, 4, amount);
}
