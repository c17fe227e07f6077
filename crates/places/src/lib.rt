//! Where a rank stands, and the table of places: the one word that each place touches, and what follows.
//! There is no memory here. Code with a network of its own parses a record, asks for the access, performs
//! it and asks what follows.
//!
//! A plan and a rank are passed side by side, and no struct holds the two: each public function is given both, so a
//! struct would be made at every entry and opened again at every question, which are all of the plan's own methods. So
//! are a plan and a table of records, which `lock` passes on.
#![tactic(auto)]

pub mod access;
pub mod answer;
pub mod follow;
pub mod place;
pub mod record;
pub mod status;
pub mod touch;
