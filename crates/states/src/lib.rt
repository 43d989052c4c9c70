// What the state of a machine and that of the ledger have in common: the committee, and the header's first fields.
#![tactic(auto)]

pub mod committee;
pub mod header;
