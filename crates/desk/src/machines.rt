// The calls on a settlement machine.
ghost use Rattle.std.specs.Prelude.{◌≡◌};
ghost use Rattle.records.specs.States.{base};
ghost use Rattle.records.specs.Calls as calls;
ghost use Rattle.desk.specs.Layout.{no_bits, order_bits, certificate_bits, stretch_bits, packed, left, crossing, account_left, reading};

use crate::numbers;
use states::committee::Committee;
use wire::kinds::{Account, Machine};

pub fn cartlozenge_fresh_machine(state: &mut [u8], f: u64, own: u64) -> u64
    ensures { left result state.new ≡ crossing no_bits (calls.fresh base state.old f own) }
{
    numbers::of(machine::make_fresh(state, Committee::of(f), Machine(own)))
}

pub fn cartlozenge_order(state: &mut [u8], message: &[u8], verdicts: &[u8]) -> u64
    ensures { left result state.new ≡ crossing order_bits (calls.order base state.old message.now verdicts.now) }
{
    numbers::of(machine::handle_order(state, message, verdicts))
}

pub fn cartlozenge_certificate(state: &mut [u8], message: &[u8], verdicts: &[u8]) -> u64
    ensures { left result state.new ≡ crossing certificate_bits (calls.certificate base state.old message.now verdicts.now) }
{
    numbers::of(machine::handle_certificate(state, message, verdicts))
}

pub fn cartlozenge_funding_order(state: &mut [u8], message: &[u8], verdicts: &[u8]) -> u64
    ensures { left result state.new ≡ crossing no_bits (calls.funding_order base state.old message.now verdicts.now) }
{
    numbers::of(machine::handle_funding(state, message, verdicts))
}

pub fn cartlozenge_account(
    state: &[u8],
    account: u64,
    values: &mut [u64; 3],
    balance: &mut i64,
) -> u64
    ensures { account_left result values.new balance.new ≡ reading (calls.account base state.now account) values.old balance.old }
{
    match machine::read_account(state, Account(account)) {
        Ok(reading) => {
            // Stored where a signed number is lent, it has to be a whole local.
            let signed = reading.balance;
            *values = [u64::from(reading.used), reading.next.0, reading.free];
            *balance = signed;
            0
        }
        Err(refusal) => refusal.number(),
    }
}

pub fn cartlozenge_standing_body(message: &[u8], state: &[u8]) -> u64
    ensures { result ≡ packed stretch_bits (calls.standing_at base message.now state.now) }
{
    numbers::of(Ok(machine::standing_at(message, state)))
}
