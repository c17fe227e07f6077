//! Tests of the three memories, and what a caller of another crate can promise by their contracts.
#![tactic(auto)]

mod caller;
mod single;
#[cfg(test)]
mod tests;
