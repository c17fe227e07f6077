//! Jobs: layout and then a list of calls, over a plan, any memory and a lent table of records.
//! The contract of `run_job` carries the whole law.
#![tactic(auto)]

pub mod run;
