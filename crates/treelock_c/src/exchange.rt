//! A call and what it answered, in the form in which they cross to C.

ghost use Rattle.std.specs.Prelude.{◌≡◌};
ghost use Rattle.treelock_c.specs.Exchanges.{answer_code, number_code};

use places::answer::Answer;
use refusal::Refusal;

/// One call of a job and the place for its answer.
// Letters and numbers in place of enums, for C.
#[repr(C)]
#[derive(Clone, Copy)]
pub struct Exchange {
    /// W, R, S or L, as in an order.
    pub letter: u8,
    /// The first letter of the answer, or the number of the refusal.
    pub answer: u8,
    /// Any number; one that the plan does not have is refused by 6.
    pub rank: u16,
}

// The number of a refusal, or 255 for want of memory, which has none.
pub(crate) fn code_of_refusal(refusal: Refusal) -> u8
    ensures { result ≡ number_code refusal }
{
    refusal.number().unwrap_or(255)
}

// The first letter of an answer, or the number of a refusal: a byte, for C.
pub(crate) fn code_of_answer(answer: Result<Answer, Refusal>) -> u8
    ensures { result ≡ answer_code answer }
{
    match answer {
        Ok(Answer::Asked) => b'a',
        Ok(Answer::Leaving) => b'l',
        Ok(Answer::Entered) => b'e',
        Ok(Answer::Free) => b'f',
        Ok(Answer::Waiting) => b'w',
        Ok(Answer::Moved) => b'm',
        Err(refusal) => code_of_refusal(refusal),
    }
}
