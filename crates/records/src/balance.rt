// Balances are handled lifted by 10^15: from 0, the lowest, to 2 * 10^15. They stand in eight bytes as two's complement.
ghost use Rattle.std.specs.Prelude.{◌≡◌, ◌≤◌};
ghost use Rattle.records.specs.Balances as balances;

use crate::record::Record;

// From the number that the eight bytes make.
pub(crate) fn lift(w: u64) -> u64
    ensures { result ≡ balances.lift w }
{
    w.wrapping_add(Record::NOUGHT)
}

// And back.
pub(crate) fn lower(lifted: u64) -> u64
    ensures { result ≡ balances.lower lifted }
{
    lifted.wrapping_sub(Record::NOUGHT)
}

// With its sign, by `as`: from a u64 there is no `i64::from`.
pub fn signed(lifted: u64) -> i64
    requires { lifted ≤ balances.highest }
    ensures { result ≡ balances.signed lifted }
{
    lifted as i64 - Record::NOUGHT as i64
}

// Free to spend.
pub fn free(lifted: u64) -> u64
    ensures { result ≡ balances.free lifted }
{
    lifted.saturating_sub(Record::NOUGHT)
}
