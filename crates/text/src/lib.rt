// Text in lent bytes: what is written behind one another, the words of a line, and lines as they arrive.
#![tactic(auto)]

pub mod arrivals;
pub mod line;
pub mod page;
pub mod words;
