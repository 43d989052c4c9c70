// An account's record, read out, changed and written back as a value.
ghost use Rattle.std.specs.Prelude.{◌≡◌, ◌+◌, ◌<◌, ◌≤◌, true, length};
ghost use Rattle.records.specs.Balances.{highest};
ghost use Rattle.records.specs.Records as records;
ghost use Rattle.records.specs.States.{base, place, record_of, is_formed, pending_of, with_record};

use crate::{balance, state};
use messages::body;
use octets::{EIGHT, ONE, TWO};
use wire::kinds::{Account, Sequence};

// The balance is lifted; `waiting` is the length of the pending body, 0 if there is none. It stands beside an array that has room for each body: there
// is no heap.
#[derive(Drop)]
pub struct Record {
    pub used: bool,
    pub waiting: usize,
    pub next: Sequence,
    pub balance: u64,
    pub pending: [u8; 57],
}

// Whether the numbers of a record are in range.
#[tactic(auto, unfolding(crate::specs::Records::in_range))]
fn in_range(used: u64, waiting: u64, next: u64, balance: u64) -> bool
    ensures { result ≡ records.in_range used waiting next balance }
{
    used <= 1 && waiting <= 57 && next <= Record::MOST_NEXT && balance <= Record::HIGHEST
}

// Whether a pending body may stand in the record of this account.
fn pending_formed(account: Account, next: Sequence, pending: &[u8]) -> bool
    ensures { result ≡ records.is_pending account.0 next.0 pending.now }
{
    if pending.is_empty() {
        return true;
    }
    let Ok(payment) = body::read_payment(pending) else {
        return false;
    };
    payment.sender.0 == account.0 && payment.sequence.0 == next.0
}

impl Record {
    pub const FIRST: usize = 8;

    pub const LENGTH: usize = 72;

    // What stands before the pending body.
    pub const HEAD: usize = 12;

    pub const MOST_NEXT: u64 = 4096;

    // The balance 0 and the highest one, lifted.
    pub const NOUGHT: u64 = 1_000_000_000_000_000;

    pub const HIGHEST: u64 = 2_000_000_000_000_000;

    // A record out of use.
    pub fn fresh() -> Record
        ensures { result ≡ records.fresh_record }
    {
        Record {
            used: false,
            waiting: 0,
            next: Sequence(0),
            balance: Record::NOUGHT,
            pending: [0u8; 57],
        }
    }

    // By `as`, here and below: between a u64 and a usize there is no `From`. State and account are two arguments, as the definitions have them.
    // Where the record of an account stands. That there is one is a clause of five methods: a type that says it would be made anew at each of their
    // callers, which have the fact at hand.
    pub fn place(account: Account) -> usize
        requires { account.0 ≤ 63 }
        ensures { (result ≡ place base account.0) × (result ≤ 4544) }
    {
        Record::FIRST + Record::LENGTH * (account.0 as usize)
    }

    // Whether the record of an account is well formed.
    #[tactic(auto, using(crate::proofs::Facts::in_range_lem), unfolding(crate::specs::Records::is_record))]
    pub fn formed(s: &[u8; state::LENGTH], account: Account) -> bool
        requires { account.0 ≤ 63 }
        ensures { result ≡ is_formed base s.now account.0 }
    {
        let at = Record::place(account);
        let used = octets::get::<ONE>(s, at);
        let waiting = octets::get::<ONE>(s, at + 1);
        let next = octets::get::<TWO>(s, at + 2);
        let balance = balance::lift(octets::get::<EIGHT>(s, at + 4));
        let n = waiting as usize;
        in_range(used, waiting, next, balance)
            && pending_formed(
                account,
                Sequence(next),
                octets::cut(s, at + Record::HEAD, n),
            )
            && octets::zeros(octets::cut(s, at + Record::HEAD + n, 60 - n))
            && (used == 1 || octets::zeros(octets::cut(s, at, Record::LENGTH)))
    }

    pub fn read(s: &[u8; state::LENGTH], account: Account) -> Record
        requires { account.0 ≤ 63 }
        ensures { result ≡ record_of base s.now account.0 }
    {
        let at = Record::place(account);
        Record {
            used: octets::get::<ONE>(s, at) == 1,
            waiting: octets::get::<ONE>(s, at + 1) as usize,
            next: Sequence(octets::get::<TWO>(s, at + 2)),
            balance: balance::lift(octets::get::<EIGHT>(s, at + 4)),
            pending: octets::held(octets::cut(s, at + Record::HEAD, 57)),
        }
    }

    // The pending body of an account, uncopied; empty if there is none.
    pub fn pending(s: &[u8; state::LENGTH], account: Account) -> &[u8]
        requires { (account.0 ≤ 63) × (is_formed base s.now account.0 ≡ true) }
        ensures { result.now ≡ pending_of base s.now account.0 }
    {
        let at = Record::place(account);
        let n = octets::get::<ONE>(s, at + 1) as usize;
        octets::cut(s, at + Record::HEAD, n)
    }

    pub fn write(self, s: &mut [u8; state::LENGTH], account: Account)
        requires { (account.0 ≤ 63) × records.Fits self }
        ensures { s.new ≡ with_record base s.old account.0 self }
    {
        let at = Record::place(account);
        octets::put::<ONE>(s, at, u64::from(self.used));
        octets::put::<ONE>(s, at + 1, self.waiting as u64);
        octets::put::<TWO>(s, at + 2, self.next.0);
        octets::put::<EIGHT>(s, at + 4, balance::lower(self.balance));
        octets::copy(s, at + Record::HEAD, &self.pending);
        octets::clear(s, at + 69, 3);
    }

    // With this body pending. Its length is a clause, which each caller has from the body's reader.
    pub fn holding(self, body: &[u8]) -> Record
        requires { length body.now ≤ 57 }
        ensures { result ≡ records.holding self body.now }
    {
        Record {
            waiting: body.len(),
            pending: octets::held(body),
            ..self
        }
    }

    // After a payment that takes an amount off.
    pub fn paid(self, amount: u64) -> Record
        requires { (amount ≤ self.balance) × (self.next.0 ≤ 4096) }
        ensures { result ≡ records.paid self amount }
    {
        Record {
            used: true,
            next: Sequence(self.next.0 + 1),
            balance: self.balance - amount,
            ..Record::fresh()
        }
    }

    // Put in use, with an amount more.
    pub fn credited(self, amount: u64) -> Record
        requires { self.balance + amount ≤ highest }
        ensures { result ≡ records.credited self amount }
    {
        Record {
            used: true,
            balance: self.balance + amount,
            ..self
        }
    }
}
