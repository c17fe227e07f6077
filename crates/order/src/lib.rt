//! The step order: a plan, then calls, as commands of one letter and fixed operands.
//! The plan is read in and written out, and the two agree; calls are read in; the lines of a run are made.
#![tactic(auto)]

pub mod bytes;
pub mod calls;
pub mod command;
pub mod fault;
pub mod lines;
pub mod read;
pub mod whole;
pub mod write;
