//! Tests that run tables against the code.

mod cases;
mod faults;
mod orders;
mod runs;
