//! One step of a rank: its record is parsed, one row of the table touches one word, the record is written whole.

ghost use Rattle.std.specs.Prelude.{◌≡◌, OnErr};
ghost use Rattle.plan.specs.Trees.{tree_of};
ghost use Rattle.places.specs.Table.{access_of};
ghost use Rattle.lock.specs.Steps.{row_next, row_words, stepped};
ghost use Rattle.lock.specs.Touched.{OneWord};

use crate::room::has_room;
use memory::{Memory, perform};
use places::access::next_access;
use places::answer::Answer;
use places::follow::{Next, follow};
use places::place::Place;
use places::record::{Record, place_of, record_of};
use plan::plan::Plan;
use refusal::Refusal;

// One row of the table.
fn row<M: Memory>(plan: &Plan, memory: &mut M, rank: u16, place: Place) -> Result<Next, Refusal>
    ensures value { result ≡ row_next (tree_of plan.now) (M.ReadMemory.words memory.old)
        rank place (access_of (tree_of plan.now) rank place) }
    ensures after { M.ReadMemory.words memory.new
        ≡ row_words (M.ReadMemory.words memory.old)
        (access_of (tree_of plan.now) rank place) }
    ensures kept { OnErr result (M.ReadMemory.words memory.new
        ≡ M.ReadMemory.words memory.old) }
{
    let access = next_access(plan, rank, place).ok_or(Refusal::NotUnderWay)?;
    let old = perform(memory, access.home, access.offset, access.operation)?;
    follow(plan, rank, place, old)
}

/// One step of a rank: refused by 5, 6, 7 or 9, by what the memory refuses, and last by a waiting writer's own 7.
/// It changes at most the one word that the touch names, and at most the one record of its rank.
pub fn step<M: Memory>(
    plan: &Plan,
    memory: &mut M,
    records: &mut [Record],
    rank: u16,
) -> Result<Answer, Refusal>
    ensures value { result ≡ (stepped (tree_of plan.now) (M.ReadMemory.words memory.old)
        records.old rank).answer }
    ensures words { M.ReadMemory.words memory.new
        ≡ (stepped (tree_of plan.now) (M.ReadMemory.words memory.old)
        records.old rank).words }
    ensures records { records.new
        ≡ (stepped (tree_of plan.now) (M.ReadMemory.words memory.old)
        records.old rank).records }
    ensures one_word { OneWord (tree_of plan.now) (M.ReadMemory.words memory.old)
        records.old rank }
{
    if !has_room(plan, memory, records) {
        return Err(Refusal::TooShort);
    }
    let place = place_of(plan, records, rank)?;
    let next = row(plan, memory, rank, place)?;
    records[rank as usize - 1] = record_of(next.place);
    Ok(next.answer)
}
