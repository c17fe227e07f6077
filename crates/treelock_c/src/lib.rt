//! The lock for callers in C, as a static library: a plan and a table of calls in, what they answer into the table.
#![tactic(auto)]

pub mod exchange;
pub mod run;
