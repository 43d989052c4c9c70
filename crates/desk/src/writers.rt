// The writers. They write at the start of the output.
ghost use Rattle.std.specs.Prelude.{◌≡◌};
ghost use Rattle.wire.specs.Writers.{write_body, write_order, write_funding, write_certificate};
ghost use Rattle.desk.specs.Layout.{left, writing, pays, funds};

use crate::numbers;
use wire::kinds::{Account, Funding, FundingIndex, Payment, Sequence};

// C hands a payment over as its five numbers.
fn payment_of(sender: u64, kind: u64, recipient: u64, amount: u64, sequence: u64) -> Payment
    ensures { result ≡ pays sender kind recipient amount sequence }
{
    Payment {
        sender: Account(sender),
        kind,
        recipient,
        amount,
        sequence: Sequence(sequence),
    }
}

pub fn cartlozenge_write_body(
    out: &mut [u8],
    sender: u64,
    kind: u64,
    recipient: u64,
    amount: u64,
    sequence: u64,
    note: &[u8],
) -> u64
    ensures { left result out.new ≡ writing (write_body out.old (pays sender kind recipient amount sequence) note.now) }
{
    let payment = payment_of(sender, kind, recipient, amount, sequence);
    numbers::of(writing::write_body(out, payment, note))
}

pub fn cartlozenge_write_order(
    out: &mut [u8],
    sender: u64,
    kind: u64,
    recipient: u64,
    amount: u64,
    sequence: u64,
    note: &[u8],
    signature: &[u8],
) -> u64
    ensures { left result out.new ≡ writing (write_order out.old (pays sender kind recipient amount sequence) note.now signature.now) }
{
    let payment = payment_of(sender, kind, recipient, amount, sequence);
    numbers::of(writing::write_order(out, payment, note, signature))
}

pub fn cartlozenge_write_funding_order(out: &mut [u8], index: u64, account: u64, amount: u64) -> u64
    ensures { left result out.new ≡ writing (write_funding out.old (funds index account amount)) }
{
    let order = Funding {
        index: FundingIndex(index),
        account: Account(account),
        amount,
    };
    numbers::of(writing::write_funding(out, order))
}

pub fn cartlozenge_write_certificate(f: u64, out: &mut [u8], body: &[u8], votes: &[u8]) -> u64
    ensures { left result out.new ≡ writing (write_certificate f out.old body.now votes.now) }
{
    numbers::of(writing::write_certificate(f, out, body, votes))
}
