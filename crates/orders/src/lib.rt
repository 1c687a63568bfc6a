// The write order of an item, and reasons 2 and 3, which go by it.
#![tactic(auto)]

pub mod order;
pub mod reasons;
