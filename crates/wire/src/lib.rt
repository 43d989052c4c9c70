// What the messages of document 01 are made of: the kinds of number, the answers, fields with their reader, and the layout of each message.
#![tactic(auto)]

pub mod answers;
pub mod fields;
pub mod kinds;
pub mod layouts;
