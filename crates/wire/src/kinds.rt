// The kinds of number, counted apart, and what messages say. A value may be out of range: readers and writers refuse it.
ghost use Rattle.std.specs.Prelude.{◌≡◌};
ghost use Rattle.wire.specs.Numbers.{is_account, is_recipient, is_amount, is_sequence, is_index};
ghost use Rattle.wire.specs.Messages.{is_payment, is_funding};

#[derive(Clone, Copy)]
pub struct Account(pub u64);

#[derive(Clone, Copy)]
pub struct Machine(pub u64);

#[derive(Clone, Copy)]
pub struct Sequence(pub u64);

#[derive(Clone, Copy)]
pub struct FundingIndex(pub u64);

// Each kind has its own range and its own test: a trait over them would be as long, and each caller would have to import it.
impl Account {
    pub const LAST: u64 = 63;

    pub fn in_range(self) -> bool
        ensures { result ≡ is_account self.0 }
    {
        self.0 <= Account::LAST
    }
}

impl Sequence {
    pub const LAST: u64 = 4095;

    pub fn in_range(self) -> bool
        ensures { result ≡ is_sequence self.0 }
    {
        self.0 <= Sequence::LAST
    }
}

impl FundingIndex {
    pub const LAST: u64 = 65535;

    pub fn in_range(self) -> bool
        ensures { result ≡ is_index self.0 }
    {
        (1..=FundingIndex::LAST).contains(&self.0)
    }
}

// An amount is in watt-hours.
pub fn amount_in_range(amount: u64) -> bool
    ensures { result ≡ is_amount amount }
{
    (1..=1_000_000_000).contains(&amount)
}

pub fn recipient_in_range(kind: u64, number: u64) -> bool
    ensures { result ≡ is_recipient kind number }
{
    match kind {
        0 => number <= Account::LAST,
        1 => number <= 65_535,
        _ => false,
    }
}

// What a body says. Of kind 0 the recipient is an account, of kind 1 an account at the ledger. The kind is a number
// and no enum: writers are promised to take any kind and to refuse those that there are not.
#[derive(Clone, Copy)]
pub struct Payment {
    pub sender: Account,
    pub kind: u64,
    pub recipient: u64,
    pub amount: u64,
    pub sequence: Sequence,
}

impl Payment {
    #[tactic(auto, unfolding(crate::specs::Messages::is_payment))]
    pub fn in_range(self) -> bool
        ensures { result ≡ is_payment self }
    {
        self.sender.in_range()
            && recipient_in_range(self.kind, self.recipient)
            && amount_in_range(self.amount)
            && self.sequence.in_range()
    }
}

// What a funding order says.
#[derive(Clone, Copy)]
pub struct Funding {
    pub index: FundingIndex,
    pub account: Account,
    pub amount: u64,
}

impl Funding {
    #[tactic(auto, unfolding(crate::specs::Messages::is_funding))]
    pub fn in_range(self) -> bool
        ensures { result ≡ is_funding self }
    {
        self.index.in_range() && self.account.in_range() && amount_in_range(self.amount)
    }
}

// The note's bytes, zeros after them: there is no heap.
#[derive(Clone, Copy)]
pub struct Note {
    pub length: usize,
    pub bytes: [u8; 32],
}
