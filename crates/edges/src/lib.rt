// The graph of a log: every edge between two transactions, and the question about one.
#![tactic(auto)]

pub mod graph;
