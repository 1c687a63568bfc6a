// The format of a log: its records, as their bytes stand, and the copies that they name.
#![tactic(auto)]

pub mod kind;
pub mod log;
pub mod record;
