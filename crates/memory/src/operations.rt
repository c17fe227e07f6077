//! Operations as values, and the law that each is local: it leaves every other word as it was.

ghost use Rattle.memory.specs.Operations.{answered, performed, Local};
ghost use Rattle.std.specs.Prelude.{◌≡◌};

use crate::interface::Memory;
use refusal::Refusal;

/// One of the five operations on a word, with its operands.
// Data and no closure: the lock's table of places answers one, and who has a network performs it in its own way.
#[derive(Clone, Copy)]
pub enum Operation {
    /// Answers the word.
    Get,
    /// Writes a word.
    Put(u64),
    /// Writes a word, and answers the old one.
    Swap(u64),
    /// Adds to the word modulo 2^64, and answers the old one.
    Add(u64),
    /// Writes `new` if the word equals `expected`, and answers the old word.
    Cas { expected: u64, new: u64 },
}

/// Performs an operation at a home and an offset of any memory.
///
/// It answers what the operation answers; a put, which answers no word, gives 0, by the definition. What get answers at
/// every other home and offset stays as it was, and so does what else there is of the memory.
#[inline(always)]
pub fn perform<M: Memory>(
    memory: &mut M,
    home: u64,
    offset: u64,
    operation: Operation,
) -> Result<u64, Refusal>
    ensures value { result ≡ answered (M.ReadMemory.words memory.old) home offset operation }
    ensures after { M.ReadMemory.words memory.new
        ≡ performed (M.ReadMemory.words memory.old) home offset operation }
    ensures rest { M.Memory.rest.Stays memory.old memory.new }
    ensures local { Local (M.ReadMemory.words memory.old)
        (M.ReadMemory.words memory.new)
        home offset }
{
    match operation {
        Operation::Get => memory.get(home, offset),
        Operation::Put(word) => memory.put(home, offset, word).map(|()| 0),
        Operation::Swap(word) => memory.swap(home, offset, word),
        Operation::Add(by) => memory.add(home, offset, by),
        Operation::Cas { expected, new } => memory.cas(home, offset, expected, new),
    }
}
