//! The memories over a lent slice: a table of words, or a window of bytes, eight to a word.

ghost use Rattle.memory.specs.Layout.{cell_words};
ghost use Rattle.memory.specs.Lent.{words_of, rest_of};
ghost use Rattle.std.specs.Prelude.{◌≡◌};

use crate::cell::Cell;
use crate::interface::{Memory, ReadMemory};
use crate::offsets::{HOME_WORDS, MAX_HOMES};
use crate::place::place;
use refusal::Refusal;

/// A memory over a caller's slice: each five words are a home, for at most 4,096 homes.
///
/// Cells that fill no home, or lie beyond the last one, are never touched.
#[derive(Drop)]
pub struct LentMemory<'a, C> {
    cells: &'a mut [C],
}

/// A memory over a caller's table of words.
pub type WordMemory<'a> = LentMemory<'a, u64>;

/// A memory over a caller's window of bytes: each eight bytes are a word, the most significant byte first.
pub type ByteMemory<'a> = LentMemory<'a, u8>;

impl<'a, C: Cell> LentMemory<'a, C> {
    /// The memory of the words that a slice's cells spell.
    pub fn new(cells: &'a mut [C]) -> Self
        ensures words { words_of C.WIDTH C.word_at result ≡ cell_words C.WIDTH C.word_at cells.old }
        ensures cells { (result.cells.now ≡ cells.old) × (result.cells.ghost_name ≡ cells.entry.ghost_name) }
    {
        LentMemory { cells }
    }
}

impl<'a, C: Cell> ReadMemory for LentMemory<'a, C> {
    ghost words = { words_of C.WIDTH C.word_at };

    fn count(&self) -> u64 {
        (self.cells.len() as u64 / (HOME_WORDS * C::WIDTH)).min(MAX_HOMES)
    }

    fn get(&self, home: u64, offset: u64) -> Result<u64, Refusal> {
        let at = place(self.count(), home, offset)?;
        Ok(C::load(self.cells, at))
    }
}

impl<'a, C: Cell> Memory for LentMemory<'a, C> {
    ghost rest = { rest_of C.WIDTH };

    fn put(&mut self, home: u64, offset: u64, word: u64) -> Result<(), Refusal> {
        let at = place(self.count(), home, offset)?;
        C::store(self.cells, at, word);
        Ok(())
    }
}
