//! The cells that a lent slice is made of: how words stand in a row of them.

ghost use Rattle.memory.specs.Layout.{table_word, byte_word};
ghost use Rattle.std.proofs.Common.{rules};
ghost use Rattle.std.specs.Prelude.{◌≡◌, ℕ, ◌+◌, ◌*◌, ◌<◌, ◌≤◌, List, length, drop};

use crate::endian::{WORD_BYTES, load, store};

/// A cell of a slice: `WIDTH` of them in a row are a word.
///
/// The word at place p is in the `WIDTH` cells from `WIDTH` p on.
pub trait Cell {
    /// A word has this many cells.
    const WIDTH: u64;

    ghost WIDTH: { ℕ };

    ghost word_at: { List Self → ℕ → ℕ };

    /// The word at a place.
    fn load(cells: &[Self], place: u64) -> u64
        requires { WIDTH * (place + 1) ≤ length cells.now }
        ensures { result ≡ word_at cells.now place };

    /// Writes the word at a place, and no other.
    fn store(cells: &mut [Self], place: u64, word: u64)
        requires { WIDTH * (place + 1) ≤ length cells.old }
        ensures here { word_at cells.new place ≡ word }
        ensures elsewhere { (i : ℕ) → (i ≡ place → ⊥) → word_at cells.new i ≡ word_at cells.old i }
        ensures behind { drop (WIDTH * (place + 1)) cells.new ≡ drop (WIDTH * (place + 1)) cells.old };

    // So the cells of a home are some, and their number fits.
    ghost few: { (0 < WIDTH) × (WIDTH ≤ 8) };
}

/// A word of its own.
impl Cell for u64 {
    const WIDTH: u64 = 1;

    ghost WIDTH = { 1 };

    ghost word_at = { table_word };

    ghost few = { Prim.search rules };

    fn load(cells: &[u64], place: u64) -> u64 {
        cells[place as usize]
    }

    fn store(cells: &mut [u64], place: u64, word: u64) {
        cells[place as usize] = word;
    }
}

/// A byte of a word, the most significant first.
impl Cell for u8 {
    const WIDTH: u64 = WORD_BYTES;

    ghost WIDTH = { 8 };

    ghost word_at = { byte_word };

    ghost few = { Prim.search rules };

    fn load(cells: &[u8], place: u64) -> u64 {
        load(cells, (WORD_BYTES * place) as usize)
    }

    fn store(cells: &mut [u8], place: u64, word: u64) {
        store(cells, (WORD_BYTES * place) as usize, word);
    }
}
