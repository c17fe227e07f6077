//! Memories of shared words behind one interface: homes of five words each, in words, in bytes, or joined.
#![tactic(auto)]

mod cell;
mod endian;
mod interface;
mod joined;
mod lent;
mod offsets;
mod operations;
mod place;

pub use interface::{Memory, ReadMemory};
pub use joined::JoinedMemory;
pub use lent::{ByteMemory, LentMemory, WordMemory};
pub use offsets::{ARRIVE, DEPART, HOME_WORDS, MAX_HOMES, NEXT, STATUS, TAIL};
pub use operations::{Operation, perform};
