// Refusals: their numbers and places, and those that look at one record alone.
#![tactic(auto)]

pub mod form;
pub mod refusal;
