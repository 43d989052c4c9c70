// The calls of the table, each with its answer. The machine is number 0 with f = 1; all verdicts are good.
ghost use Rattle.std.specs.Prelude.{◌≤◌, length};

use crate::{papers, say};
use messages::{body, funding};
use records::answers::{Confirmation, Vote};
use records::state;
use states::committee::Committee;
use wire::kinds::{Account, Funding, FundingIndex, Machine, Payment, Sequence};

pub(crate) fn write_body(rt: HostRuntime, before: &[u8], amount: u64) {
    let payment = Payment {
        sender: Account(2),
        kind: 0,
        recipient: 7,
        amount,
        sequence: Sequence(0),
    };
    let mut out = [170u8; 57];
    say::text(rt, before);
    say::written(rt, writing::write_body(&mut out, payment, b""));
    say::hex(rt, &out);
}

// A body that is refused has no note.
pub(crate) fn read_body(rt: HostRuntime, before: &[u8], amount: u64) {
    say::text(rt, before);
    let length = match body::read_body(&papers::body(amount, 0)) {
        Ok(body) => {
            say::payment(rt, body.payment);
            body.note.length
        }
        Err(refusal) => {
            say::refused(rt, refusal);
            0
        }
    };
    say::number(rt, b", bytes of note ", length);
}

pub(crate) fn write_funding(rt: HostRuntime, before: &[u8], amount: u64) {
    let order = Funding {
        index: FundingIndex(1),
        account: Account(2),
        amount,
    };
    let mut out = [170u8; 20];
    say::text(rt, before);
    say::written(rt, writing::write_funding(&mut out, order));
    say::hex(rt, &out);
}

pub(crate) fn read_funding(rt: HostRuntime, before: &[u8], amount: u64) {
    say::text(rt, before);
    match funding::read_funding(&papers::funding(amount)) {
        Ok(order) => say::funding(rt, order),
        Err(refusal) => say::refused(rt, refusal),
    }
}

// A machine that some rows call one after another.
#[derive(Drop)]
pub(crate) struct Desk {
    rt: HostRuntime,
    state: [u8; state::LENGTH],
}

impl Desk {
    pub(crate) fn fresh(rt: HostRuntime) -> Desk {
        let mut state = [170u8; state::LENGTH];
        let _ = machine::make_fresh(&mut state, Committee::of(1), Machine(0));
        Desk { rt, state }
    }

    pub(crate) fn fund(&mut self, before: &[u8], amount: u64) {
        say::text(self.rt, before);
        match machine::handle_funding(&mut self.state, &papers::funding(amount), b"\x01") {
            Ok(()) => say::text(self.rt, b"credited"),
            Err(refusal) => say::refused(self.rt, refusal),
        }
    }

    pub(crate) fn order(&mut self, before: &[u8], amount: u64, sequence: u8) {
        say::text(self.rt, before);
        match machine::handle_order(&mut self.state, &papers::order(amount, sequence), b"\x01") {
            Ok(Vote::New) => say::text(self.rt, b"vote, new"),
            Ok(Vote::Repeated) => say::text(self.rt, b"vote, repeated"),
            Err(refusal) => say::refused(self.rt, refusal),
        }
    }

    pub(crate) fn certificate(&mut self, before: &[u8], amount: u64, sequence: u8, voters: &[u8])
        requires { length voters.now ≤ 4 }
    {
        let message = papers::certificate(amount, sequence, voters);
        let n = voters.len();
        say::text(self.rt, before);
        match machine::handle_certificate(
            &mut self.state,
            &message[..28 + 68 * n],
            &[1u8; 4][..n],
        ) {
            Ok(Confirmation::Confirmed(n)) => say::number(self.rt, b"confirmed, votes ", n),
            Ok(Confirmation::Already(n)) => say::number(self.rt, b"already, votes ", n),
            Err(refusal) => say::refused(self.rt, refusal),
        }
    }

    pub(crate) fn account(&self, before: &[u8], number: u64) {
        say::text(self.rt, before);
        match machine::read_account(&self.state, Account(number)) {
            Ok(reading) => say::reading(self.rt, reading),
            Err(refusal) => say::refused(self.rt, refusal),
        }
    }

    // The header, and the records of accounts 2 and 7 where they stand.
    pub(crate) fn bytes(&self) {
        say::hex(self.rt, &self.state[..8]);
        say::hex(self.rt, &self.state[152..224]);
        say::hex(self.rt, &self.state[512..584]);
    }
}
