//! The lines of a run: each is made from its end and laid into a caller's buffer of at least 24 bytes.

ghost use Rattle.std.specs.Prelude.{◌≡◌, ◌+◌, ◌≤◌, [], ◌++◌, length, take, IfOk, decimal};
ghost use Rattle.order.specs.Bytes.{overlaid};
ghost use Rattle.order.specs.Lines.{answer_word, bad_line, line_length, line_written, refusal_words, reply_line, roomy_bad, roomy_line, shown_number};

use crate::fault::Fault;
use itoa::write_digits;
use law::call::Call;
use places::answer::Answer;
use refusal::Refusal;
use std::marker::Model;

// A line, from `start` to the end of its bytes. It is made from its end, since the digits of a number come last first.
#[derive(Drop)]
struct Line {
    bytes: [u8; 24],
    start: usize,
}

impl Model for Line {
    ghost use Rattle.std.specs.Prelude.{ℕ, ◌≤◌, List, drop};

    ghost Value = { List ℕ };

    ghost view = { λ l. drop l.start l.bytes };

    ghost invariant = { λ l. l.start ≤ 24 };
}

impl Line {
    fn new() -> Line
        ensures { result ≡ [] }
    {
        Line {
            bytes: [0; 24],
            start: 24,
        }
    }

    // Text before what stands.
    fn put(&mut self, text: &[u8])
        requires { length text.now + length self.old ≤ 24 }
        ensures { self.new ≡ text.now ++ self.old }
    {
        let start = self.start - text.len();
        self.bytes[start..self.start].copy_from_slice(text);
        self.start = start;
    }

    // A number before what stands, in decimal digits.
    fn put_number(&mut self, n: u16)
        requires { 5 + length self.old ≤ 24 }
        ensures text { self.new ≡ decimal n ++ self.old }
        ensures short { length self.new ≤ 5 + length self.old }
    {
        self.start = write_digits(n.into(), &mut self.bytes, self.start);
    }

    // Lays the line over the front of a buffer, and answers its length.
    fn lay(&self, out: &mut [u8]) -> usize
        requires { 24 ≤ length out.old }
        ensures value { result ≡ length self.now }
        ensures buffer { out.new ≡ overlaid self.now out.old }
        ensures short { result ≤ length out.new }
        ensures line { take result out.new ≡ self.now }
    {
        let text = &self.bytes[self.start..];
        out[..text.len()].copy_from_slice(text);
        text.len()
    }
}

// The end of a line that tells an answer.
fn text_of(answer: Answer) -> &'static [u8]
    ensures value { result.now ≡ answer_word answer }
    ensures short { length result.now ≤ 9 }
{
    match answer {
        Answer::Asked => b" asked\n",
        Answer::Leaving => b" leaving\n",
        Answer::Entered => b" entered\n",
        Answer::Free => b" free\n",
        Answer::Waiting => b" waiting\n",
        Answer::Moved => b" moved\n",
    }
}

// The number that a line tells of a refusal: 0 where it has none, so that every refusal has a line.
fn number_of(refusal: Refusal) -> u16
    ensures { result ≡ shown_number refusal }
{
    refusal.number().unwrap_or(0).into()
}

/// The line of a call and what it answered: letter, rank and answer, or `refused` and the number.
/// Answers the line's length; a buffer of fewer than 24 bytes is refused by 15 and left as it was.
pub fn write_reply(
    call: Call,
    reply: Result<Answer, Refusal>,
    out: &mut [u8],
) -> Result<usize, Refusal>
    ensures value { result ≡ line_length (roomy_line out.old) (reply_line call reply) }
    ensures buffer { out.new
        ≡ line_written (roomy_line out.old) (reply_line call reply) out.old }
    ensures short { IfOk result (λ n. n ≤ length out.new) }
    ensures line { IfOk result (λ n. take n out.new ≡ reply_line call reply) }
{
    if out.len() < 24 {
        return Err(Refusal::BufferTooSmall);
    }
    let mut line = Line::new();
    match reply {
        Ok(answer) => line.put(text_of(answer)),
        Err(refusal) => {
            line.put(b"\n");
            line.put_number(number_of(refusal));
            line.put(b" refused ");
        }
    }
    line.put_number(call.rank());
    line.put(&[call.letter() as u8, b' ']);
    Ok(line.lay(out))
}

/// The line of a bad order. Answers the line's length; a buffer of fewer than 24 bytes, and an offset that no
/// order has, above 65,535, are refused by 15, and the buffer is left as it was.
pub fn write_bad(fault: Fault, out: &mut [u8]) -> Result<usize, Refusal>
    ensures value { result ≡ line_length (roomy_bad fault out.old) (bad_line fault) }
    ensures buffer { out.new
        ≡ line_written (roomy_bad fault out.old) (bad_line fault) out.old }
    ensures short { IfOk result (λ n. n ≤ length out.new) }
    ensures line { IfOk result (λ n. take n out.new ≡ bad_line fault) }
{
    if out.len() < 24 || fault.offset > 65535 {
        return Err(Refusal::BufferTooSmall);
    }
    let mut line = Line::new();
    line.put(b"\n");
    line.put_number(fault.offset as u16);
    line.put(b" at ");
    line.put_number(number_of(fault.refusal));
    line.put(b"bad ");
    Ok(line.lay(out))
}
