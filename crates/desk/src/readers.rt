// The readers. Their values go into a lent array.
ghost use Rattle.std.specs.Prelude.{◌≡◌};
ghost use Rattle.wire.specs.Readers.{read_body, read_order, read_funding, read_certificate, judged, covered_at};
ghost use Rattle.desk.specs.Layout.{stretch_bits, packed, left, showing, noted, stretch_said};

use crate::arrays::Listed;
use crate::{arrays, numbers};
use messages::{body, certificate, covered, funding, order};
use records::answers::StandingAnswer;
use wire::answers::Certified;

// A function for each of C's names.
pub fn cartlozenge_read_body(message: &[u8], values: &mut [u64; 6]) -> u64
    ensures { left result values.new ≡ showing (noted (read_body message.now).answer (read_body message.now).note.length) values.old }
{
    arrays::show(body::read_body(message), values)
}

pub fn cartlozenge_read_order(message: &[u8], values: &mut [u64; 6]) -> u64
    ensures { left result values.new ≡ showing (noted (read_order message.now).answer (read_order message.now).note.length) values.old }
{
    arrays::show(order::read_order(message), values)
}

pub fn cartlozenge_read_funding_order(message: &[u8], values: &mut [u64; 3]) -> u64
    ensures { left result values.new ≡ showing (read_funding message.now) values.old }
{
    arrays::show(funding::read_funding(message), values)
}

pub fn cartlozenge_read_certificate(f: u64, message: &[u8], values: &mut [u64; 6]) -> u64
    ensures { left result values.new ≡ showing (read_certificate f message.now) values.old }
{
    arrays::show(certificate::read_certificate(f, message), values)
}

// The payment is read here and not handed through the judge's answer, which would copy it twice.
pub fn cartlozenge_judge_certificate(
    f: u64,
    message: &[u8],
    verdicts: &[u8],
    values: &mut [u64; 6],
) -> u64
    ensures { left result values.new ≡ showing (judged f message.now verdicts.now) values.old }
{
    match certificate::judge(f, message, verdicts) {
        Ok(machines) => {
            let payment = certificate::payment(message);
            *values = Certified { machines, payment }.values();
            0
        }
        Err(refusal) => refusal.number(),
    }
}

pub fn cartlozenge_covered(message: &[u8]) -> u64
    ensures { result ≡ packed stretch_bits (stretch_said (covered_at message.now)) }
{
    numbers::of(Ok(StandingAnswer::InMessage(covered::covered_at(message))))
}
