// What the calls on a machine answer where they do not refuse.
use wire::answers::Stretch;
use wire::kinds::Sequence;

// A vote, and whether it was given before.
#[derive(Clone, Copy)]
pub enum Vote {
    New,
    Repeated,
}

// With the number of votes counted.
#[derive(Clone, Copy)]
pub enum Confirmation {
    Confirmed(u64),
    Already(u64),
}

// What one reads of an account. Free to spend is the balance, or 0 if it is negative.
#[derive(Clone, Copy)]
pub struct Reading {
    pub used: bool,
    pub next: Sequence,
    pub balance: i64,
    pub free: u64,
}

// Where the body that stands for an order's sender lies.
#[derive(Clone, Copy)]
pub enum StandingAnswer {
    InMessage(Stretch),
    InState(Stretch),
}
