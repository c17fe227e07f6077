//! Tests that run tables against the code. All speak of plan A.

mod given;
mod rows;
mod runs;
mod short;
mod spoiled;
mod turns;
