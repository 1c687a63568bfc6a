// Reads logs: checks them by document 01's table and names the write behind every read, by its transaction and its place.
#![tactic(auto)]

pub mod check;
pub mod passed;
pub mod source;
