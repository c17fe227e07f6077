//! A reader at a command of an order: the letter as a char, the command's length and operand, and whether it is due.

ghost use Rattle.std.specs.Prelude.{◌≡◌, ◌+◌, ◌<◌, length, nat_le, IfOk};
ghost use Rattle.order.specs.Bytes.{pair_at};
ghost use Rattle.order.specs.Commands.{checked, letter_at, size};

use crate::bytes::{byte_at, bytes_at};
use crate::fault::Fault;
use refusal::Refusal;

// How many bytes a command has by the order's format, its letter among them; an unknown letter is not looked behind.
fn length_of(letter: char) -> usize
    ensures value { result ≡ size letter }
    ensures some { 0 < result }
{
    match letter {
        'H' => 20,
        'E' | 'K' | 'W' | 'R' | 'S' | 'L' => 3,
        _ => 1,
    }
}

/// An order, and the offset of the command that is read next.
#[derive(Clone, Copy)]
pub(crate) struct Reader<'a> {
    pub(crate) order: &'a [u8],
    pub(crate) at: usize,
}

impl Reader<'_> {
    // The order ends neither before a command with this letter nor in it.
    fn is_whole(&self, letter: char) -> bool
        ensures { result ≡ nat_le (self.now.at + size letter) (length self.now.order.now) }
    {
        self.order.len().saturating_sub(self.at) >= length_of(letter)
    }

    // The command's letter, unless the order ends before the command or in it.
    pub(crate) fn letter(&self) -> Result<char, Fault>
        ensures { result ≡ letter_at self.now.order.now self.now.at }
    {
        let cut = Fault::new(Refusal::Cut, self.at);
        let letter = *self.order.get(self.at).ok_or(cut)? as char;
        if !self.is_whole(letter) {
            return Err(cut);
        }
        Ok(letter)
    }

    // The two bytes behind the letter as a number. Three are read, since the place behind the letter may be no usize.
    pub(crate) fn operand(&self) -> u16
        ensures { result ≡ pair_at self.now.order.now (self.now.at + 1) }
    {
        let [_, high, low] = bytes_at::<3>(self.order, self.at);
        u16::from_be_bytes([high, low])
    }

    // Whether the command is the one that is due: a cut command is refused first, then a misplaced one.
    pub(crate) fn check(&self, due: char) -> Result<(), Fault>
        ensures value { result ≡ checked self.now.order.now self.now.at due }
        ensures within { IfOk result (λ _. self.now.at < length self.now.order.now) }
    {
        // the usual case first: the due command is there, and no other letter's length is asked for
        if byte_at(self.order, self.at) as char == due && self.is_whole(due) {
            return Ok(());
        }
        self.letter()?;
        Err(Fault::new(Refusal::Misplaced, self.at))
    }
}

/// Whether the command at a place is the one that is due: a cut command is refused first, then a misplaced one.
// A place and a letter of the format: callers have no reader.
pub fn check_command(order: &[u8], at: usize, due: char) -> Result<(), Fault>
    ensures { result ≡ checked order.now at due }
{
    Reader { order, at }.check(due)
}
