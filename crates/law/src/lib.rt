//! The law of the lock over whole jobs: exclusion, order and the way back to idle.
//! Statements stand in specs/, their proofs in proofs/; the only code is the calls that they speak of.
#![tactic(auto)]

pub mod call;
