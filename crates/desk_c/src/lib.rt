// The C interface as an archive for hosts: each function of `desk` under its name, with its contract.
#![tactic(auto)]

pub mod ledgers;
pub mod machines;
pub mod readers;
pub mod writers;
