// The cycle of a rest that is stuck, where each transaction waits for another: walked back from one of them, cut out of the path, and written
// from its lowest number on. It knows who waits for whom, and neither logs nor how a line is placed.
#![tactic(auto)]

pub mod cycle;
mod part;
pub mod waits;
