//! The interface of memories: what every memory shows of itself, and nothing of where its words stand.
//!
//! Reading stands apart from changing, so that code which only reads can say so.

ghost use Rattle.std.specs.Prelude.{◌≡◌, ◌≤◌};
ghost use Rattle.memory.specs.Rest.{Rest, no_rest};
ghost use Rattle.memory.specs.Words.{Words, got, accepted, written, added, exchanged};

use refusal::Refusal;

/// Homes of five 64-bit words, read one word at a time.
///
/// A home is a number from 1 to the count, an offset one from 0 to 4. Any other home is refused by
/// `UnknownHome`; at a home, any other offset by `UnknownOffset`; and there is no other refusal.
pub trait ReadMemory {
    ghost words: { Self → Words };

    /// The number of homes.
    fn count(&self) -> u64
        ensures value { result ≡ (words self.now).count }
        ensures bound { result ≤ 4096 };

    /// The word at a home and an offset.
    fn get(&self, home: u64, offset: u64) -> Result<u64, Refusal>
        ensures { result ≡ got (words self.now) home offset };
}

/// Homes whose words are also changed, one word at a time.
///
/// Each operation touches its one word only, and a refusal changes none. The count never changes.
///
/// A memory needs a `put` of its own. The default bodies of the others are a get and a put: a memory
/// whose words are shared writes its own, in one step.
pub trait Memory: ReadMemory {
    // What a memory has besides its homes' words, which every operation leaves as it was.
    ghost rest: { Rest Self } = { no_rest };

    /// Writes a word.
    fn put(&mut self, home: u64, offset: u64, word: u64) -> Result<(), Refusal>
        ensures value { result ≡ accepted (Self.ReadMemory.words self.old) home offset }
        ensures after { Self.ReadMemory.words self.new
            ≡ written (Self.ReadMemory.words self.old) home offset word }
        ensures count { (Self.ReadMemory.words self.new).count
            ≡ (Self.ReadMemory.words self.old).count }
        ensures rest { rest.Stays self.old self.new };

    /// Writes a word, and answers the old one.
    fn swap(&mut self, home: u64, offset: u64, word: u64) -> Result<u64, Refusal>
        ensures value { result ≡ got (Self.ReadMemory.words self.old) home offset }
        ensures after { Self.ReadMemory.words self.new
            ≡ written (Self.ReadMemory.words self.old) home offset word }
        ensures count { (Self.ReadMemory.words self.new).count
            ≡ (Self.ReadMemory.words self.old).count }
        ensures rest { rest.Stays self.old self.new }
    {
        let old = self.get(home, offset)?;
        self.put(home, offset, word)?;
        Ok(old)
    }

    /// Adds to a word modulo 2^64, and answers the old one. A subtraction is an add.
    fn add(&mut self, home: u64, offset: u64, by: u64) -> Result<u64, Refusal>
        ensures value { result ≡ got (Self.ReadMemory.words self.old) home offset }
        ensures after { Self.ReadMemory.words self.new
            ≡ added (Self.ReadMemory.words self.old) home offset by }
        ensures count { (Self.ReadMemory.words self.new).count
            ≡ (Self.ReadMemory.words self.old).count }
        ensures rest { rest.Stays self.old self.new }
    {
        let old = self.get(home, offset)?;
        self.put(home, offset, old.wrapping_add(by))?;
        Ok(old)
    }

    /// Writes `new` if the word equals `expected`, and answers the old word in either case.
    fn cas(&mut self, home: u64, offset: u64, expected: u64, new: u64) -> Result<u64, Refusal>
        ensures value { result ≡ got (Self.ReadMemory.words self.old) home offset }
        ensures after { Self.ReadMemory.words self.new
            ≡ exchanged (Self.ReadMemory.words self.old) home offset expected new }
        ensures count { (Self.ReadMemory.words self.new).count
            ≡ (Self.ReadMemory.words self.old).count }
        ensures rest { rest.Stays self.old self.new }
    {
        let old = self.get(home, offset)?;
        if old == expected {
            self.put(home, offset, new)?;
        }
        Ok(old)
    }
}
