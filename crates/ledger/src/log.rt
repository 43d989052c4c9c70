// The logs: which sequences of which account were redeemed, one bit each.
ghost use Rattle.std.specs.Prelude.{◌≡◌, ◌≤◌, ◌<◌};
ghost use Rattle.std.specs.Int.Bits.{bit_or};
ghost use Rattle.ledger.specs.States as ledger;
ghost use Rattle.ledger.specs.States.{base};

use crate::state;
use octets::ONE;
use wire::kinds::{Account, Sequence};

// A bit of the logs: a sequence of an account, both in range.
#[derive(Clone, Copy)]
pub(crate) struct Entry {
    pub(crate) account: Account,
    pub(crate) sequence: Sequence,
    ghost in_range: { (account.0 ≤ 63) × (sequence.0 ≤ 4095) },
}

impl Entry {
    // Where the byte with the bit stands.
    fn place(self) -> usize
        ensures { (result ≡ ledger.place base self.account.0 self.sequence.0) × (result < 32784) }
    {
        state::LOGS + state::LOG * (self.account.0 as usize) + (self.sequence.0 / 8) as usize
    }

    pub(crate) fn is_redeemed(self, s: &[u8; state::LENGTH]) -> bool
        ensures { result ≡ ledger.is_redeemed base s.now self.account.0 self.sequence.0 }
    {
        let byte = octets::get::<ONE>(s, self.place());
        (byte >> (self.sequence.0 % 8)) % 2 == 1
    }

    pub(crate) fn redeem(self, s: &mut [u8; state::LENGTH])
        ensures { s.new ≡ ledger.with_redeemed base s.old self.account.0 self.sequence.0 }
    {
        let at = self.place();
        let byte = octets::get::<ONE>(s, at);
        octets::put::<ONE>(s, at, marked(byte, self.sequence));
    }
}

// A byte of the log with the bit of a sequence set.
fn marked(byte: u64, sequence: Sequence) -> u64
    requires { byte < 256 }
    ensures { (result ≡ bit_or byte (ledger.value sequence.0)) × (result < 256) }
{
    byte | (1u64 << (sequence.0 % 8))
}
