//! A memory of one's own, as an example: one home, whose five words it keeps itself.

ghost use Rattle.memory.specs.Layout.{place_of, row_words};
ghost use Rattle.memory.specs.Words.{refusing};
ghost use Rattle.std.specs.Prelude.{◌≡◌, ◌≤◌, IfOk, Ok, Err, slice_index};

use memory::{DEPART, Memory, ReadMemory};
use refusal::Refusal;

/// The five words of home 1.
#[derive(Drop)]
pub struct SingleHome {
    pub words: [u64; 5],
}

// The place of the word at a home and an offset, or the refusal.
fn place(home: u64, offset: u64) -> Result<usize, Refusal>
    ensures value { result ≡ refusing 1 home offset Err (Ok (place_of home offset)) }
    ensures inside { IfOk result (λ at. (home ≡ 1) × (offset ≤ 4) × (at ≡ place_of home offset)) }
{
    if home != 1 {
        return Err(Refusal::UnknownHome);
    }
    if offset > DEPART {
        return Err(Refusal::UnknownOffset);
    }
    Ok(offset as usize)
}

impl ReadMemory for SingleHome {
    ghost words = { λ m. row_words 1 (λ i. slice_index m.words i) };

    fn count(&self) -> u64 {
        1
    }

    fn get(&self, home: u64, offset: u64) -> Result<u64, Refusal> {
        let at = place(home, offset)?;
        Ok(self.words[at])
    }
}

// Nothing else uses these words, so swap, add and cas may be a get and a put.
impl Memory for SingleHome {
    fn put(&mut self, home: u64, offset: u64, word: u64) -> Result<(), Refusal> {
        let at = place(home, offset)?;
        self.words[at] = word;
        Ok(())
    }
}
