// The lines of an answer, each a value of its own, and those of the answer records put behind a text.
#![tactic(auto)]

pub mod line;
pub mod room;
