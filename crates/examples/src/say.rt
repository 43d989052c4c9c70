// Words, numbers and bytes on standard output. A refusal is its number, as in document 01. No `Display`: these words are those of the table alone.
use records::answers::Reading;
use std::fmt::Display;
use wire::answers::Refusal;
use wire::kinds::{Funding, Payment};

pub(crate) fn text(rt: HostRuntime, t: &[u8]) {
    let _ = rt.write_all(t);
}

pub(crate) fn number(rt: HostRuntime, before: &[u8], n: impl Display + Drop) {
    text(rt, before);
    let _ = rt.print(n);
}

pub(crate) fn hex(rt: HostRuntime, bytes: &[u8]) {
    text(rt, b"\n    ");
    for byte in bytes {
        let _ = print!(rt; "{byte:02x}");
    }
}

pub(crate) fn refused(rt: HostRuntime, refusal: Refusal) {
    number(rt, b"", refusal.number());
}

pub(crate) fn written(rt: HostRuntime, answer: Result<usize, Refusal>) {
    match answer {
        Ok(n) => number(rt, b"bytes written ", n),
        Err(refusal) => refused(rt, refusal),
    }
}

pub(crate) fn payment(rt: HostRuntime, p: Payment) {
    number(rt, b"sender ", p.sender.0);
    number(rt, b", kind ", p.kind);
    number(rt, b", recipient ", p.recipient);
    number(rt, b", amount ", p.amount);
    number(rt, b", sequence ", p.sequence.0);
}

pub(crate) fn funding(rt: HostRuntime, order: Funding) {
    number(rt, b"index ", order.index.0);
    number(rt, b", account ", order.account.0);
    number(rt, b", amount ", order.amount);
}

pub(crate) fn reading(rt: HostRuntime, r: Reading) {
    if r.used {
        text(rt, b"in use, ");
    }
    number(rt, b"next ", r.next.0);
    number(rt, b", balance ", r.balance);
    number(rt, b", free to spend ", r.free);
}
