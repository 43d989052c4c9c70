// The state of a settlement machine in lent bytes: its header and its records.
#![tactic(auto)]

pub mod answers;
pub mod balance;
pub mod record;
pub mod state;
