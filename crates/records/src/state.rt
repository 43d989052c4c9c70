// The whole state: 4,616 bytes, of which the first eight are the header.
ghost use Rattle.std.specs.Prelude.{◌≡◌, ◌<◌, true, false, MatchOption};
ghost use Rattle.std.specs.Borrow.{sem, LendsIf, Array, u8};
ghost use Rattle.records.specs.States as states;
ghost use Rattle.records.specs.States.{base, is_state};

use octets::ONE;
use states::committee::Committee;
use states::header;
use wire::kinds::Machine;

pub const LENGTH: usize = 4616;

// Whether length and header are as they should be.
#[tactic(auto, unfolding(crate::specs::States::is_state, crate::specs::States::is_base_header))]
pub fn formed(s: &[u8]) -> bool
    ensures { result ≡ states.is_state base s.now }
{
    s.len() == LENGTH
        && header::committee(s).seats(Machine(octets::get::<ONE>(s, 1)))
        && octets::zeros(octets::cut(s, 4, 4))
}

// The state in these bytes, if length and header are as they should be: lent as they are, or to be written. The ledger has the like, with its own test.
pub fn open(s: &[u8]) -> Option<&[u8; LENGTH]>
    ensures { MatchOption result (is_state base s.now ≡ false) (λ state. (state.now ≡ s.now) × (is_state base s.now ≡ true)) }
{
    if !formed(s) {
        return None;
    }
    s.as_array()
}

pub fn open_mut(s: &mut [u8]) -> Option<&mut [u8; LENGTH]>
    ensures value { MatchOption result (is_state base s.old ≡ false) (λ state. (state.now ≡ s.old) × (is_state base s.old ≡ true)) }
    ensures* writes_back { sem 𝓛 (LendsIf (Array u8 0) (Array u8 0) s.entry result (λ bytes. bytes) s.old) }
{
    if !formed(s) {
        return None;
    }
    s.as_mut_array()
}

// A fresh state is f, the machine's own number and zeros.
pub fn write_fresh(s: &mut [u8; LENGTH], committee: Committee, own: Machine)
    requires { (committee.faults < 256) × (own.0 < 256) }
    ensures { s.new ≡ states.fresh_state base committee.faults own.0 }
{
    header::write_fresh(s, committee);
    octets::put::<ONE>(s, 1, own.0);
}
