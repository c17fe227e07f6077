//! The listing of a plan: lines of text that say where everything lives, or what is wrong with an order.
#![tactic(auto)]

pub mod lines;
mod numbered;
pub mod report;
