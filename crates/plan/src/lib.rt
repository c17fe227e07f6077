//! The plan of a tree lock: its ranks, the tree of elements above them, its counters and thresholds,
//! and where the words of each live.
#![tactic(auto)]

pub mod plan;
pub mod questions;
pub mod shape;
