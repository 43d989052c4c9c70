// Orders, and the body that an order or a certificate encloses in its first field.
ghost use Rattle.std.specs.Prelude.{◌≡◌, ◌≤◌, ◌+◌, length};
ghost use Rattle.wire.specs.Fields.{size};
ghost use Rattle.wire.specs.Messages.{inside};
ghost use Rattle.wire.specs.Refusals.{body_said};
ghost use Rattle.wire.specs.Readers.{read_order_payment, order_shown, read_order};

use crate::body;
use octets::TWO;
use wire::answers::{Order, Refusal};
use wire::kinds::Payment;
use wire::layouts;

// The body inside field 10 or 20, uncopied. By `as`: between a u64 and a usize there is no `From`.
pub(crate) fn enclosed(message: &[u8]) -> &[u8]
    requires { 3 + size message.now 0 ≤ length message.now }
    ensures { (result.now ≡ inside message.now) × (length result.now ≡ size message.now 0) }
{
    octets::cut(message, 3, octets::get::<TWO>(message, 1) as usize)
}

// The payment that an order says, without note and signature.
pub fn order_payment(message: &[u8]) -> Result<Payment, Refusal>
    ensures { body_said result ≡ read_order_payment message.now }
{
    let Some(end) = layouts::order_end(message) else {
        return Err(Refusal::Malformed);
    };
    body::read_payment(octets::cut(message, 3, end - 3))
}

pub fn read_order(message: &[u8]) -> Result<Order, Refusal>
    ensures { order_shown result ≡ read_order message.now }
{
    let payment = order_payment(message)?;
    let inside = enclosed(message);
    let size = inside.len();
    Ok(Order {
        payment,
        note: body::note_of(octets::cut(inside, 25, size - 25)),
        signature: octets::held::<64>(octets::cut(message, size + 6, 64)),
    })
}
