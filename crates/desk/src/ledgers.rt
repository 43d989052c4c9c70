// The calls on the purchase ledger.
ghost use Rattle.std.specs.Prelude.{◌≡◌};
ghost use Rattle.ledger.specs.States.{base};
ghost use Rattle.ledger.specs.Calls as calls;
ghost use Rattle.desk.specs.Layout.{no_bits, redeem_bits, log_bits, packed, left, crossing, fund_left, funding, showing};

use crate::{arrays, numbers};
use states::committee::Committee;
use wire::kinds::{Account, Sequence};

pub fn cartlozenge_fresh_ledger(state: &mut [u8], f: u64) -> u64
    ensures { left result state.new ≡ crossing no_bits (calls.fresh base state.old f) }
{
    numbers::of(ledger::make_fresh(state, Committee::of(f)))
}

pub fn cartlozenge_fund(state: &mut [u8], out: &mut [u8], account: u64, amount: u64) -> u64
    ensures { fund_left result state.new out.new ≡ funding (calls.fund base state.old out.old account amount) }
{
    numbers::of(ledger::fund(state, out, Account(account), amount))
}

pub fn cartlozenge_redeem(state: &mut [u8], message: &[u8], verdicts: &[u8]) -> u64
    ensures { left result state.new ≡ crossing redeem_bits (calls.redeem base state.old message.now verdicts.now) }
{
    numbers::of(ledger::redeem(state, message, verdicts))
}

pub fn cartlozenge_pot(state: &[u8], values: &mut [u64; 2]) -> u64
    ensures { left result values.new ≡ showing (calls.read_pot base state.now) values.old }
{
    arrays::show(ledger::read_pot(state), values)
}

pub fn cartlozenge_redeemed(state: &[u8], account: u64, sequence: u64) -> u64
    ensures { result ≡ packed log_bits (calls.read_log base state.now account sequence) }
{
    numbers::of(ledger::read_log(state, Account(account), Sequence(sequence)))
}
