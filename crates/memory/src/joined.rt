//! The joined memory: any two memories, one after the other.

ghost use Rattle.memory.specs.Joins.{Lies, words_of, rest_of};
ghost use Rattle.memory.specs.Layout.{joined_words};
ghost use Rattle.memory.specs.Operations.{answered, performed};
ghost use Rattle.std.specs.Prelude.{◌≡◌};

use crate::interface::{Memory, ReadMemory};
use crate::offsets::MAX_HOMES;
use crate::operations::{Operation, perform};
use refusal::Refusal;

/// Two memories as one: homes 1 to m are the first's m homes, the rest the second's, 4,096 at most.
#[derive(Drop)]
pub struct JoinedMemory<P, Q> {
    first: P,
    second: Q,
}

// The memory that a home of a joined memory lies in, and the home's number there.
#[derive(Clone, Copy)]
enum Side {
    First(u64),
    Second(u64),
}

// Where a home lies, if the first memory has `border` homes; above 4,096 homes there is none.
fn locate(border: u64, home: u64) -> Result<Side, Refusal>
    ensures { Lies border home result }
{
    if home > MAX_HOMES {
        Err(Refusal::UnknownHome)
    } else if home <= border {
        Ok(Side::First(home))
    } else {
        Ok(Side::Second(home - border))
    }
}

impl<P: ReadMemory, Q: ReadMemory> JoinedMemory<P, Q> {
    /// The memory of the homes of both.
    pub fn new(first: P, second: Q) -> Self
        ensures words { words_of P.ReadMemory.words Q.ReadMemory.words result
            ≡ joined_words (P.ReadMemory.words first) (Q.ReadMemory.words second) }
        ensures parts { (result.first ≡ first) × (result.second ≡ second) }
    {
        JoinedMemory { first, second }
    }
}

impl<P: ReadMemory, Q: ReadMemory> ReadMemory for JoinedMemory<P, Q> {
    ghost words = { words_of P.ReadMemory.words Q.ReadMemory.words };

    fn count(&self) -> u64 {
        (self.first.count() + self.second.count()).min(MAX_HOMES)
    }

    fn get(&self, home: u64, offset: u64) -> Result<u64, Refusal> {
        match locate(self.first.count(), home)? {
            Side::First(near) => self.first.get(near, offset),
            Side::Second(far) => self.second.get(far, offset),
        }
    }
}

impl<P: Memory, Q: Memory> JoinedMemory<P, Q> {
    // The part that a home lies in performs the operation, by its own method of that name. By `Operation`,
    // since otherwise the match would stand once for each; inlined, so that each method below goes straight
    // to its parts' method.
    #[inline(always)]
    fn delegate(&mut self, home: u64, offset: u64, operation: Operation) -> Result<u64, Refusal>
        ensures value { result ≡ answered (words_of P.ReadMemory.words Q.ReadMemory.words self.old)
            home offset operation }
        ensures after { words_of P.ReadMemory.words Q.ReadMemory.words self.new
            ≡ performed (words_of P.ReadMemory.words Q.ReadMemory.words self.old)
            home offset operation }
        ensures rest { (rest_of P.ReadMemory.words Q.ReadMemory.words P.Memory.rest Q.Memory.rest).Stays
            self.old self.new }
    {
        match locate(self.first.count(), home)? {
            Side::First(near) => perform(&mut self.first, near, offset, operation),
            Side::Second(far) => perform(&mut self.second, far, offset, operation),
        }
    }
}

// Each operation is the part's own, and no default body: where a part shares its words, its own swap,
// add and cas are one step each, and a get and a put are two.
impl<P: Memory, Q: Memory> Memory for JoinedMemory<P, Q> {
    ghost rest = { rest_of P.ReadMemory.words Q.ReadMemory.words P.Memory.rest Q.Memory.rest };

    fn put(&mut self, home: u64, offset: u64, word: u64) -> Result<(), Refusal> {
        self.delegate(home, offset, Operation::Put(word))
            .map(|_| ())
    }

    fn swap(&mut self, home: u64, offset: u64, word: u64) -> Result<u64, Refusal> {
        self.delegate(home, offset, Operation::Swap(word))
    }

    fn add(&mut self, home: u64, offset: u64, by: u64) -> Result<u64, Refusal> {
        self.delegate(home, offset, Operation::Add(by))
    }

    fn cas(&mut self, home: u64, offset: u64, expected: u64, new: u64) -> Result<u64, Refusal> {
        self.delegate(home, offset, Operation::Cas { expected, new })
    }
}
