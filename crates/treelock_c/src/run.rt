//! A job for a caller in C: its plan as the front part of an order, its calls and their answers as one table.

ghost use Rattle.std.specs.Prelude.{◌≡◌, ◌≤◌, Ok, Err, MatchResult, OnOk};
ghost use Rattle.refusal.specs.Numbers.{IsOnSheet};
ghost use Rattle.plan.specs.Trees.{tree_of};
ghost use Rattle.law.specs.Calls.{ran, state};
ghost use Rattle.order.specs.Reading.{reading};
ghost use Rattle.treelock_c.specs.Exchanges.{call_in, calls_in, made_call, replies};
ghost use Rattle.treelock_c.specs.Runs.{Lawful, Told, outcome};

use crate::exchange::{Exchange, code_of_answer, code_of_refusal};
use job::run::run_call;
use lock::layout::layout;
use memory::{Memory, WordMemory};
use order::calls::call_of;
use order::read::read_plan;
use places::answer::Answer;
use places::record::Record;
use plan::plan::Plan;
use plan::shape::{MOST_ELEMENTS, MOST_RANKS};
use refusal::Refusal;
use std::alloc::Global;

// Each rank and each element of a plan has a home, of five words.
const MOST_WORDS: usize = 5 * (MOST_RANKS + MOST_ELEMENTS);

// One exchange's call; a letter that is none of a call's is refused by 14, and nothing changes. Plan, memory and records
// are passed side by side, as the calls of `lock` take them.
fn answer_one<M: Memory>(
    plan: &Plan,
    memory: &mut M,
    records: &mut [Record],
    e: Exchange,
) -> Result<Answer, Refusal>
    ensures value { result ≡ (made_call (tree_of plan.now) (M.ReadMemory.words memory.old)
        records.old (call_in e)).answer }
    ensures words { M.ReadMemory.words memory.new
        ≡ (made_call (tree_of plan.now) (M.ReadMemory.words memory.old)
        records.old (call_in e)).words }
    ensures records { records.new
        ≡ (made_call (tree_of plan.now) (M.ReadMemory.words memory.old)
        records.old (call_in e)).records }
{
    let call = call_of(e.letter as char, e.rank).ok_or(Refusal::Misplaced)?;
    run_call(plan, memory, records, call)
}

// The calls of the table one after another, each answer into its place. Not one function with the `run_calls` of `job`:
// a generic walk would go over places by an iterator, and no contract could say what it leaves in them.
fn answer_all<M: Memory>(
    plan: &Plan,
    memory: &mut M,
    records: &mut [Record],
    table: &mut [Exchange],
)
    ensures words { M.ReadMemory.words memory.new
        ≡ (ran (tree_of plan.now)
        (state (M.ReadMemory.words memory.old) records.old)
        (calls_in table.old)).words }
    ensures records { records.new
        ≡ (ran (tree_of plan.now)
        (state (M.ReadMemory.words memory.old) records.old)
        (calls_in table.old)).records }
    ensures table { table.new
        ≡ replies (tree_of plan.now)
        (state (M.ReadMemory.words memory.old) records.old)
        table.old }
{
    for exchange in table.iter_mut() {
        let answer = answer_one(plan, memory, records, *exchange);
        exchange.answer = code_of_answer(answer);
    }
}

// The job over a memory of its own.
fn run(heap: Global, plan: &[u8], table: &mut [Exchange]) -> Result<(), Refusal>
    ensures value { MatchResult result
        (λ _. outcome plan.now table.old ≡ Ok table.new)
        (λ e. (table.new ≡ table.old)
        × (IsOnSheet e → outcome plan.now table.old ≡ Err e)) }
    ensures law { OnOk result (Lawful (reading plan.now) table.old) }
{
    let read = read_plan(heap, plan).map_err(|fault| fault.refusal)?;
    let mut words = vec![in heap; 0u64; MOST_WORDS]?;
    let mut records = vec![in heap; Record::IDLE; MOST_RANKS]?;
    let mut memory = WordMemory::new(words.as_mut_slice());
    let lent = records.as_mut_slice();
    let _ = layout(&read.plan, &mut memory, lent);
    answer_all(&read.plan, &mut memory, lent, table);
    Ok(())
}

/// Runs a job: the plan as the front part of an order, H to G, then the calls of the table, one after another. Each
/// exchange gets its answer; a letter that is none of a call's is refused by 14 in its place. Answers 0, or the number
/// by which the plan is refused, or 255 if the machine has no memory left; if it is not 0, the table is as it was.
/// The law holds of the plan and the calls.
// A number, since C has no Result.
#[unsafe(no_mangle)]
pub extern "C" fn treelock_run(heap: Global, plan: &[u8], table: &mut [Exchange]) -> u8
    ensures value { Told result (outcome plan.now table.old)
        table.old table.new }
    ensures law { result ≡ 0 → Lawful (reading plan.now) table.old }
{
    match run(heap, plan, table) {
        Ok(()) => 0,
        Err(refusal) => code_of_refusal(refusal),
    }
}
