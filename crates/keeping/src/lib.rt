// State files, kept so that nothing is lost, one program at a time over each, and standard input.
#![tactic(auto)]

pub mod complaints;
pub mod files;
pub mod guard;
pub mod input;
pub mod saving;
