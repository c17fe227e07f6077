//! A lock is laid out over a memory and a table of records.

ghost use Rattle.std.specs.Prelude.{◌≡◌, ◌+◌, ◌≤◌, length};
ghost use Rattle.plan.specs.Trees.{tree_of};
ghost use Rattle.lock.specs.Layouts.{cleared, home_cleared, idled, laid_answer, laid_records, laid_words};

use crate::room::has_room;
use memory::{HOME_WORDS, Memory};
use places::place::Place;
use places::record::{Record, record_of};
use plan::plan::Plan;
use refusal::Refusal;

// Zeros in the words of one home.
fn clear_home<M: Memory>(memory: &mut M, home: u64)
    requires { (1 ≤ home) × (home ≤ (M.ReadMemory.words memory.old).count) }
    ensures { M.ReadMemory.words memory.new
        ≡ home_cleared (M.ReadMemory.words memory.old) home 5 }
{
    for offset in 0..HOME_WORDS {
        let _ = memory.put(home, offset, 0);
    }
}

// Zeros in the words of the homes from 1 on, up to the last.
fn clear_homes<M: Memory>(memory: &mut M, last: u64)
    requires { last ≤ (M.ReadMemory.words memory.old).count }
    ensures { M.ReadMemory.words memory.new
        ≡ cleared (M.ReadMemory.words memory.old) (last + 1) }
{
    for home in 1..=last {
        clear_home(memory, home);
    }
}

// The first records idle. How many is told beside them, since a caller's table may be longer.
fn idle_all(records: &mut [Record], n: usize)
    requires { n ≤ length records.old }
    ensures { records.new ≡ idled records.old n }
{
    records[..n].fill(record_of(Place::Idle));
}

/// Lays a lock out: zeros in its words and nothing beyond, a record idle for each rank and no further one.
/// Too few records or homes are refused by 5.
// Inlined, so that a caller's memory is asked for its homes once, and not at each word.
#[inline]
pub fn layout<M: Memory>(plan: &Plan, memory: &mut M, records: &mut [Record]) -> Result<(), Refusal>
    ensures value { result ≡ laid_answer (tree_of plan.now)
        (M.ReadMemory.words memory.old) records.old }
    ensures words { M.ReadMemory.words memory.new
        ≡ laid_words (tree_of plan.now) (M.ReadMemory.words memory.old)
        records.old }
    ensures records { records.new
        ≡ laid_records (tree_of plan.now) (M.ReadMemory.words memory.old)
        records.old }
{
    if !has_room(plan, memory, records) {
        return Err(Refusal::TooShort);
    }
    clear_homes(memory, plan.homes());
    idle_all(records, plan.shape().ranks as usize);
    Ok(())
}
