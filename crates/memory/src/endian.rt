//! A word among bytes: eight of them, the most significant first. A place is told beside the bytes, since one word of
//! them is meant.

ghost use Rattle.std.specs.Prelude.{◌≡◌, ◌+◌, ◌≤◌, length, take, drop};
ghost use Rattle.memory.specs.Layout.{be_word};

/// A word has this many bytes.
pub(crate) const WORD_BYTES: u64 = 8;

/// The word that the eight bytes from `at` on spell.
pub(crate) fn load(bytes: &[u8], at: usize) -> u64
    requires { at + 8 ≤ length bytes.now }
    ensures { result ≡ be_word bytes.now at }
{
    u64::from_be_bytes(bytes[at..at + 8].try_into().unwrap())
}

/// Writes a word as the eight bytes from `at` on, and no other byte.
pub(crate) fn store(bytes: &mut [u8], at: usize, word: u64)
    requires { at + 8 ≤ length bytes.old }
    ensures before { take at bytes.new ≡ take at bytes.old }
    ensures here { be_word bytes.new at ≡ word }
    ensures behind { drop (at + 8) bytes.new ≡ drop (at + 8) bytes.old }
{
    let spelt = word.to_be_bytes();
    bytes[at..at + 8].copy_from_slice(&spelt);
}
