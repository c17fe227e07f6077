//! The lines of a run, behind one another in one text.

ghost use Rattle.std.specs.Prelude.{◌≡◌, ◌≤◌, ◌++◌, length, IfOk, OnOk};
ghost use Rattle.order.specs.Lines.{bad_line, reply_line};
ghost use Rattle.transcript.specs.Transcripts.{NearEnd, fault_line, reply_lines};

use law::call::Call;
use order::fault::Fault;
use order::lines::{write_bad, write_reply};
use places::answer::Answer;
use refusal::Refusal;
use std::alloc::{AllocError, Global};

// One more line: a call and its answer. A line fits in 24 bytes.
// Kept beside push_bad: one function that takes the writer would need clauses of a closure, longer than both bodies.
fn push_reply(
    text: &mut Vec<u8>,
    call: Call,
    reply: Result<Answer, Refusal>,
) -> Result<(), AllocError>
    ensures { OnOk result (text.new.items ≡ text.old.items ++ reply_line call reply) }
{
    let mut line = [0; 24];
    let length = write_reply(call, reply, &mut line).unwrap();
    text.extend_from_slice(&line[..length])
}

// One more line: what is wrong with the order.
fn push_bad(text: &mut Vec<u8>, fault: Fault) -> Result<(), AllocError>
    requires { fault.offset ≤ 65535 }
    ensures { OnOk result (text.new.items ≡ text.old.items ++ bad_line fault) }
{
    let mut line = [0; 24];
    let length = write_bad(fault, &mut line).unwrap();
    text.extend_from_slice(&line[..length])
}

// A line for each call and its answer.
fn push_replies(
    text: &mut Vec<u8>,
    calls: &[Call],
    answers: &[Result<Answer, Refusal>],
) -> Result<(), AllocError>
    ensures { OnOk result (text.new.items
        ≡ text.old.items ++ reply_lines calls.now answers.now) }
{
    for (call, reply) in calls.iter().zip(answers) {
        push_reply(text, *call, *reply)?;
    }
    Ok(())
}

// The lines of calls and their answers, and the line of the fault that ends the order, if any.
pub(crate) fn tell(
    heap: Global,
    calls: &[Call],
    answers: &[Result<Answer, Refusal>],
    fault: Option<Fault>,
) -> Result<Vec<u8>, AllocError>
    requires { NearEnd fault }
    ensures { IfOk result (λ v. v.items
        ≡ reply_lines calls.now answers.now ++ fault_line fault) }
{
    let mut text = Vec::new(heap);
    push_replies(&mut text, calls, answers)?;
    if let Some(fault) = fault {
        push_bad(&mut text, fault)?;
    }
    Ok(text)
}
