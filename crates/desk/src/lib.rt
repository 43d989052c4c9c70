// The C interface: every call on a machine and on the ledger, every reader and writer, on numbers and lent slices. None asks anything of
// its caller. docs/INTERFACE.md has the layout of the numbers. A library exports nothing: `desk_c` makes the archive for hosts.
#![tactic(auto)]

mod arrays;
pub mod ledgers;
pub mod machines;
mod numbers;
pub mod readers;
pub mod writers;
