//! The worked cases: one table, proved of the definitions and run against the code.
#![tactic(auto)]

pub mod cases;
#[cfg(test)]
mod tests;
