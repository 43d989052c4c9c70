// What the program does but for serving a state.
#![tactic(auto)]

pub mod arguments;
pub mod drafting;
pub mod fresh;
pub mod usage;
