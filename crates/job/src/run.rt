//! One call, and a whole job.

ghost use Rattle.std.specs.Prelude.{◌≡◌, ◌≤◌, ◌++◌, length, drop, OnOk};
ghost use Rattle.plan.specs.Trees.{tree_of};
ghost use Rattle.law.specs.Beyond.{BeyondKept};
ghost use Rattle.law.specs.Calls.{answers as answers_to, called, laid, ran, state};
ghost use Rattle.law.specs.Law.{Law};
ghost use Rattle.job.specs.Outcomes.{job_answer, job_answers, job_state};

use law::call::Call;
use lock::ask::{ask_to_read, ask_to_write};
use lock::layout::layout;
use lock::leave::leave;
use lock::room::has_room;
use lock::step::step;
use memory::Memory;
use places::answer::Answer;
use places::record::Record;
use plan::plan::Plan;
use refusal::Refusal;

/// One call of a job. Plan, memory and records are passed side by side, as the calls of `lock` take them.
pub fn run_call<M: Memory>(
    plan: &Plan,
    memory: &mut M,
    records: &mut [Record],
    call: Call,
) -> Result<Answer, Refusal>
    ensures value { result ≡ (called (tree_of plan.now) (M.ReadMemory.words memory.old)
        records.old call).answer }
    ensures words { M.ReadMemory.words memory.new
        ≡ (called (tree_of plan.now) (M.ReadMemory.words memory.old)
        records.old call).words }
    ensures records { records.new
        ≡ (called (tree_of plan.now) (M.ReadMemory.words memory.old)
        records.old call).records }
{
    match call {
        Call::AskWrite { rank } => ask_to_write(plan, records, rank),
        Call::AskRead { rank } => ask_to_read(plan, records, rank),
        Call::Step { rank } => step(plan, memory, records, rank),
        Call::Leave { rank } => leave(plan, records, rank),
    }
}

// The calls one after another, each answer into its place. Calls and answers are two tables, since both are the
// caller's and a job allocates nothing.
fn run_calls<M: Memory>(
    plan: &Plan,
    memory: &mut M,
    records: &mut [Record],
    calls: &[Call],
    answers: &mut [Result<Answer, Refusal>],
)
    requires { length calls.now ≤ length answers.old }
    ensures words { M.ReadMemory.words memory.new
        ≡ (ran (tree_of plan.now)
        (state (M.ReadMemory.words memory.old) records.old) calls.now).words }
    ensures records { records.new
        ≡ (ran (tree_of plan.now)
        (state (M.ReadMemory.words memory.old) records.old) calls.now).records }
    ensures table { answers.new
        ≡ answers_to (tree_of plan.now)
        (state (M.ReadMemory.words memory.old) records.old) calls.now
        ++ drop (length calls.now) answers.old }
{
    for (i, call) in calls.iter().enumerate() {
        // by index: what `answers.iter_mut().zip(calls)` leaves in the table is not known to a proof
        answers[i] = run_call(plan, memory, records, *call);
    }
}

/// A whole job: layout, then the calls; the answer of each call into its place of the caller's table.
/// Too few records or homes are refused by 5, then a table shorter than the calls by 15, and nothing changes.
/// Otherwise answers, words and records are the defined ones, and the law holds of this plan and these calls.
/// The homes behind the lock's and the records behind its ranks' stay as they were.
pub fn run_job<M: Memory>(
    plan: &Plan,
    memory: &mut M,
    records: &mut [Record],
    calls: &[Call],
    answers: &mut [Result<Answer, Refusal>],
) -> Result<(), Refusal>
    ensures value { result ≡ job_answer (tree_of plan.now) (M.ReadMemory.words memory.old)
        records.old calls.now answers.old }
    ensures words { M.ReadMemory.words memory.new
        ≡ (job_state (tree_of plan.now) (M.ReadMemory.words memory.old)
        records.old calls.now answers.old).words }
    ensures records { records.new
        ≡ (job_state (tree_of plan.now) (M.ReadMemory.words memory.old)
        records.old calls.now answers.old).records }
    ensures table { answers.new
        ≡ job_answers (tree_of plan.now) (M.ReadMemory.words memory.old)
        records.old calls.now answers.old }
    ensures beyond { BeyondKept (tree_of plan.now)
        (state (M.ReadMemory.words memory.old) records.old)
        (state (M.ReadMemory.words memory.new) records.new) }
    ensures law { OnOk result (Law (tree_of plan.now)
        (laid (tree_of plan.now) (M.ReadMemory.words memory.old) records.old)
        calls.now) }
{
    if !has_room(plan, memory, records) {
        return Err(Refusal::TooShort);
    }
    if answers.len() < calls.len() {
        return Err(Refusal::BufferTooSmall);
    }
    let _ = layout(plan, memory, records);
    run_calls(plan, memory, records, calls, answers);
    Ok(())
}
