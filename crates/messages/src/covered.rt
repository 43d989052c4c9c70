// The stretch of a message that votes cover.
ghost use Rattle.std.specs.Prelude.{◌≡◌, ◌+◌, ◌≤◌, ◌<◌, ◌||◌, length};
ghost use Rattle.octets.specs.Tests.{need};
ghost use Rattle.wire.specs.Fields.{size, laid};
ghost use Rattle.wire.specs.Messages.{order_fields, certificate_fields};
ghost use Rattle.wire.specs.Readers.{is_body, covered, covered_at};

use crate::body;
use wire::answers::Stretch;
use wire::layouts;

// Where there is no body: the definition that is promised has no case for none.
const NOWHERE: Stretch = Stretch {
    place: 0,
    length: 0,
};

// The end of the body's field, in an order or a certificate.
fn body_end(message: &[u8]) -> Option<usize>
    ensures { result ≡ need (laid message.now order_fields || laid message.now certificate_fields) None (Some (3 + size message.now 0)) }
{
    layouts::order_end(message).or_else(|| layouts::certificate_end(message))
}

fn is_body(body: &[u8]) -> bool
    ensures { result ≡ is_body body.now }
{
    body::read_payment(body).is_ok()
}

// Where the body inside an order or a certificate lies; place and length 0 where it is neither or has 1 or 2. The bounds
// spare callers a proof.
pub fn covered_at(message: &[u8]) -> Stretch
    ensures { (result ≡ covered_at message.now) × (result.place + result.length ≤ length message.now) × (result.length < 65536) }
{
    let Some(end) = body_end(message) else {
        return NOWHERE;
    };
    let body = octets::cut(message, 3, end - 3);
    if !is_body(body) {
        return NOWHERE;
    }
    Stretch {
        place: 3,
        length: body.len(),
    }
}

// The body inside an order or a certificate, uncopied; an empty part of the message where it is neither or has 1 or 2.
pub fn covered(message: &[u8]) -> &[u8]
    ensures { result.now ≡ covered message.now }
{
    let Stretch { place, length } = covered_at(message);
    octets::cut(message, place, length)
}
