// The calls on the purchase ledger.
ghost use Rattle.std.specs.Prelude.{◌≡◌};
ghost use Rattle.ledger.specs.States.{base};
ghost use Rattle.ledger.specs.Calls as calls;
ghost use Rattle.desk.specs.Layout.{no_bits, redeem_bits, log_bits, packed, left, crossing, fund_left, funding, showing};

#[unsafe(no_mangle)]
pub extern "C" fn cartlozenge_fresh_ledger(state: &mut [u8], f: u64) -> u64
    ensures { left result state.new ≡ crossing no_bits (calls.fresh base state.old f) }
{
    desk::ledgers::cartlozenge_fresh_ledger(state, f)
}

#[unsafe(no_mangle)]
pub extern "C" fn cartlozenge_fund(
    state: &mut [u8],
    out: &mut [u8],
    account: u64,
    amount: u64,
) -> u64
    ensures { fund_left result state.new out.new ≡ funding (calls.fund base state.old out.old account amount) }
{
    desk::ledgers::cartlozenge_fund(state, out, account, amount)
}

#[unsafe(no_mangle)]
pub extern "C" fn cartlozenge_redeem(state: &mut [u8], message: &[u8], verdicts: &[u8]) -> u64
    ensures { left result state.new ≡ crossing redeem_bits (calls.redeem base state.old message.now verdicts.now) }
{
    desk::ledgers::cartlozenge_redeem(state, message, verdicts)
}

#[unsafe(no_mangle)]
pub extern "C" fn cartlozenge_pot(state: &[u8], values: &mut [u64; 2]) -> u64
    ensures { left result values.new ≡ showing (calls.read_pot base state.now) values.old }
{
    desk::ledgers::cartlozenge_pot(state, values)
}

#[unsafe(no_mangle)]
pub extern "C" fn cartlozenge_redeemed(state: &[u8], account: u64, sequence: u64) -> u64
    ensures { result ≡ packed log_bits (calls.read_log base state.now account sequence) }
{
    desk::ledgers::cartlozenge_redeemed(state, account, sequence)
}
