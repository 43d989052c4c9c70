// What the calls on the ledger answer where they do not refuse.
use wire::kinds::FundingIndex;

// What is paid out, to an account at the ledger: none of the 64 that machines keep.
#[derive(Clone, Copy)]
pub struct Payout {
    pub account: u64,
    pub amount: u64,
}

// The last funding index, 0 before the first, and what the pot holds.
#[derive(Clone, Copy)]
pub struct Pot {
    pub index: FundingIndex,
    pub amount: u64,
}
