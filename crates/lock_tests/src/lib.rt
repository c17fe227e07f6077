//! Tests of the lock's calls and of its table of places.
#![tactic(auto)]

#[cfg(test)]
mod tests;
