//! The lock's calls over any memory and a lent table of records, one step at a time.
//! Each call's contract gives its whole outcome: the answer or refusal, all words, all records.
//!
//! Plan, memory and records are passed side by side, and no struct holds the three. It would be one of lent parts, and
//! each contract would have to say that they are still the same parts, so that a caller learns what became of them. An
//! ask and a leave take no memory, which says without a proof that they touch no word.
#![tactic(auto)]

pub mod ask;
pub mod layout;
pub mod leave;
pub mod occupied;
pub mod room;
pub mod step;
