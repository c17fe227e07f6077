//! The numbers that every memory shares: its most homes, the words of a home, and their offsets.

/// A memory has at most this many homes.
pub const MAX_HOMES: u64 = 4096;

/// A home has this many words.
pub const HOME_WORDS: u64 = 5;

/// The offset of a home's first word.
pub const NEXT: u64 = 0;

/// The offset of its second word.
pub const STATUS: u64 = 1;

/// The offset of its third word.
pub const TAIL: u64 = 2;

/// The offset of its fourth word.
pub const ARRIVE: u64 = 3;

/// The offset of its last word.
pub const DEPART: u64 = 4;
