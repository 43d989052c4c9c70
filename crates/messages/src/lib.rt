// The messages of document 01: their readers, the judged certificate and the stretch that votes cover.
#![tactic(auto)]

pub mod body;
pub mod certificate;
pub mod covered;
pub mod funding;
pub mod order;
