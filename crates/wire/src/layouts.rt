// The layout of each message: its fields, read one after another.
ghost use Rattle.std.specs.Prelude.{◌≡◌, ◌+◌, Some, None};
ghost use Rattle.octets.specs.Tests.{need};
ghost use Rattle.wire.specs.Fields.{size, ends, laid, reached};
ghost use Rattle.wire.specs.Messages.{body_fields, order_fields, certificate_fields, funding_fields};

use crate::fields::Reader;

fn past_body(body: &[u8]) -> Option<Reader<'_>>
    ensures { result ≡ reached body.entry (ends body.now 0 body_fields) }
{
    Reader::new(body)
        .field(0x01, 1, 1)?
        .field(0x02, 3, 3)?
        .field(0x03, 4, 4)?
        .field(0x04, 2, 2)?
        .field(0x05, 0, 32)
}

fn past_funding(message: &[u8]) -> Option<Reader<'_>>
    ensures { result ≡ reached message.entry (ends message.now 0 funding_fields) }
{
    Reader::new(message)
        .field(0x30, 2, 2)?
        .field(0x31, 1, 1)?
        .field(0x32, 4, 4)
}

// One function for each layout: without a test of its whole length, which is its own, the compiler keeps a test at every field.
pub fn body_laid(body: &[u8]) -> bool
    ensures { result ≡ laid body.now body_fields }
{
    // No body is shorter: the compiler then drops its tests of every field's end.
    if body.len() < 25 {
        return false;
    }
    let Some(reader) = past_body(body) else {
        return false;
    };
    reader.whole()
}

pub fn funding_laid(message: &[u8]) -> bool
    ensures { result ≡ laid message.now funding_fields }
{
    // Every funding order has this length: the same holds of its tests.
    if message.len() != 16 {
        return false;
    }
    let Some(reader) = past_funding(message) else {
        return false;
    };
    reader.whole()
}

// The end of the body's field, where the message is laid out as an order.
pub fn order_end(message: &[u8]) -> Option<usize>
    ensures { result ≡ need (laid message.now order_fields) None (Some (3 + size message.now 0)) }
{
    let body = Reader::new(message).field(0x10, 25, 57)?;
    let signature = body.field(0x11, 64, 64)?;
    if !signature.whole() {
        return None;
    }
    Some(body.at)
}

// The same where it is laid out as a certificate: each layout is a chain of literals, which the compiler folds.
pub fn certificate_end(message: &[u8]) -> Option<usize>
    ensures { result ≡ need (laid message.now certificate_fields) None (Some (3 + size message.now 0)) }
{
    let body = Reader::new(message).field(0x20, 25, 57)?;
    let votes = body.fields(0x21, 65)?;
    if !votes.whole() {
        return None;
    }
    Some(body.at)
}
