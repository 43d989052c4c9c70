// Lines of text to a settlement machine or to the ledger, and the lines that answer them.
#![tactic(auto)]

pub mod calls;
pub mod files;
pub mod serving;
