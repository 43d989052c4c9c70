// What the readers answer, and why a reader, a writer or a call refuses.
ghost use Rattle.std.specs.Prelude.{◌≡◌};
ghost use Rattle.wire.specs.Refusals.{refusal_number};

use crate::kinds::{Note, Payment};

// Each refusal with its number.
#[derive(Clone, Copy, PartialEq, Eq, Debug)]
pub enum Refusal {
    Malformed = 1,
    OutOfRange = 2,
    VerdictCount = 3,
    BadVerdict = 4,
    UnknownMachine = 5,
    VotesNotRising = 6,
    TooFewVotes = 7,
    SenderNotInUse = 8,
    AnotherPending = 9,
    NotNextSequence = 10,
    BalanceTooLow = 11,
    NotNextIndex = 12,
    NotToLedger = 13,
    AlreadyRedeemed = 14,
    PotTooLow = 15,
    BadState = 16,
    IndexExhausted = 17,
    BufferTooSmall = 18,
}

impl Refusal {
    // By `as`, here and in `refusals`: there is no `From` of a discriminant.
    pub fn number(self) -> u64
        ensures { result ≡ refusal_number self }
    {
        self as u64
    }
}

// What a body says: the payment, and the note beside it.
#[derive(Clone, Copy)]
pub struct Body {
    pub payment: Payment,
    pub note: Note,
}

// What an order says, and the sender's signature: the definition `order_shown` has them side by side too.
#[derive(Clone, Copy)]
pub struct Order {
    pub payment: Payment,
    pub note: Note,
    pub signature: [u8; 64],
}

// What a certificate says: the payment, and how many different machines voted for it.
#[derive(Clone, Copy)]
pub struct Certified {
    pub payment: Payment,
    pub machines: u64,
}

// Where an uncopied answer lies: its place and its length.
#[derive(Clone, Copy)]
pub struct Stretch {
    pub place: usize,
    pub length: usize,
}
