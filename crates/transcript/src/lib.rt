//! From the bytes of an order to the lines of its run. The job is run by one call, whose contract carries the law.
#![tactic(auto)]

pub mod lines;
pub mod program;
pub mod run;
