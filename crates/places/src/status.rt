//! What the words of the lock hold besides numbers of homes and counts.

/// The bit that a writer adds to a counter's ARRIVE: 2^62.
pub const WRITE_BIT: u64 = 1 << 62;

/// STATUS of a node that waits for its predecessor: 2^32.
pub const WAIT: u64 = 1 << 32;

/// STATUS of a node that came to the head of its queue and must go on to the parent: 2^32 + 1.
pub const PARENT: u64 = WAIT + 1;

/// STATUS of a node at level 1 that came to the head after readers got their chance: 2^32 + 2.
pub const MODE: u64 = WAIT + 2;

/// Any other STATUS is a count of hand-overs, at most this.
pub const MOST_HAND_OVERS: u64 = 1000;
