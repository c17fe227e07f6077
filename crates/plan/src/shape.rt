//! The numbers of a plan, as an order can carry them; lawful or not.

/// A plan has at most this many ranks.
pub const MOST_RANKS: usize = 1024;

/// A plan has at most this many elements.
pub const MOST_ELEMENTS: usize = 256;

/// How many there are of each thing, and the thresholds.
#[derive(Clone, Copy, PartialEq, Eq, Debug)]
pub struct Shape {
    /// Ranks, numbered from 1.
    pub ranks: u16,
    /// Elements of the tree, numbered from 1; element 1 is the whole machine.
    pub elements: u16,
    /// Levels of the tree; element 1 is at level 1.
    pub levels: u8,
    /// One counter for each run of this many ranks.
    pub spacing: u16,
    /// Readers that one counter admits before writers get a chance.
    pub reader_threshold: u32,
    /// Writers in a row before readers get a chance.
    pub writer_threshold: u16,
    /// How often an element of level 2 hands on before it lets its parent go; then of levels 3 and 4.
    // Three fields and no array, so that a caller's literal names the level of each.
    pub level2_threshold: u16,
    pub level3_threshold: u16,
    pub level4_threshold: u16,
}
