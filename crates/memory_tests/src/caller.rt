//! A caller's view: by the memories' contracts alone, what was lent is known when it comes back.

ghost use Rattle.memory.specs.Layout.{table_words, byte_words, joined_words, spare};
ghost use Rattle.memory.specs.Words.{got, written, exchanged};
ghost use Rattle.std.specs.Prelude.{◌≡◌};

use memory::{ByteMemory, JoinedMemory, Memory, ReadMemory, WordMemory};
use refusal::Refusal;

/// Writes a word into a table: its homes have that word, and the words behind them are as they were.
pub fn put_in_table(table: &mut [u64], home: u64, offset: u64, word: u64) -> Result<(), Refusal>
    ensures words { table_words table.new
        ≡ written (table_words table.old) home offset word }
    ensures spare { spare 5 table.new ≡ spare 5 table.old }
{
    let mut memory = WordMemory::new(table);
    memory.put(home, offset, word)
}

/// The same of a cas in a window of bytes.
pub fn cas_in_window(
    window: &mut [u8],
    home: u64,
    offset: u64,
    expected: u64,
    new: u64,
) -> Result<u64, Refusal>
    ensures words { byte_words window.new
        ≡ exchanged (byte_words window.old) home offset expected new }
    ensures spare { spare 40 window.new ≡ spare 40 window.old }
{
    let mut memory = ByteMemory::new(window);
    memory.cas(home, offset, expected, new)
}

/// The word at a home of a table and a window that are joined.
pub fn get_in_both(
    table: &mut [u64],
    window: &mut [u8],
    home: u64,
    offset: u64,
) -> Result<u64, Refusal>
    ensures { result
        ≡ got (joined_words (table_words table.old) (byte_words window.old)) home offset }
{
    let memory = JoinedMemory::new(WordMemory::new(table), ByteMemory::new(window));
    memory.get(home, offset)
}
