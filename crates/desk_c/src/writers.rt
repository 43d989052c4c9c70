// The writers. They write at the start of the output.
ghost use Rattle.std.specs.Prelude.{◌≡◌};
ghost use Rattle.wire.specs.Writers.{write_body, write_order, write_funding, write_certificate};
ghost use Rattle.desk.specs.Layout.{left, writing, pays, funds};

#[unsafe(no_mangle)]
pub extern "C" fn cartlozenge_write_body(
    out: &mut [u8],
    sender: u64,
    kind: u64,
    recipient: u64,
    amount: u64,
    sequence: u64,
    note: &[u8],
) -> u64
    ensures { left result out.new ≡ writing (write_body out.old (pays sender kind recipient amount sequence) note.now) }
{
    desk::writers::cartlozenge_write_body(out, sender, kind, recipient, amount, sequence, note)
}

#[unsafe(no_mangle)]
pub extern "C" fn cartlozenge_write_order(
    out: &mut [u8],
    sender: u64,
    kind: u64,
    recipient: u64,
    amount: u64,
    sequence: u64,
    note: &[u8],
    signature: &[u8],
) -> u64
    ensures { left result out.new ≡ writing (write_order out.old (pays sender kind recipient amount sequence) note.now signature.now) }
{
    desk::writers::cartlozenge_write_order(
        out, sender, kind, recipient, amount, sequence, note, signature,
    )
}

#[unsafe(no_mangle)]
pub extern "C" fn cartlozenge_write_funding_order(
    out: &mut [u8],
    index: u64,
    account: u64,
    amount: u64,
) -> u64
    ensures { left result out.new ≡ writing (write_funding out.old (funds index account amount)) }
{
    desk::writers::cartlozenge_write_funding_order(out, index, account, amount)
}

#[unsafe(no_mangle)]
pub extern "C" fn cartlozenge_write_certificate(
    f: u64,
    out: &mut [u8],
    body: &[u8],
    votes: &[u8],
) -> u64
    ensures { left result out.new ≡ writing (write_certificate f out.old body.now votes.now) }
{
    desk::writers::cartlozenge_write_certificate(f, out, body, votes)
}
