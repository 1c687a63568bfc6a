// The two questions about a log as they are asked and answered at a shell: a question in bytes, and a line for its answer.
#![tactic(auto)]

pub mod asked;
pub mod line;
