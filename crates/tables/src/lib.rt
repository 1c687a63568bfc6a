// Tables of sets of transactions: how a record of a log is kept in one, and tables of edges for each reason.
#![tactic(auto)]

pub mod add;
pub mod reasons;
