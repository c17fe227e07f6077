//! Whether the records and the memory suffice for a plan.

ghost use Rattle.std.specs.Prelude.{◌≡◌};
ghost use Rattle.plan.specs.Trees.{tree_of};
ghost use Rattle.lock.specs.Outcomes.{roomy};

use memory::ReadMemory;
use places::record::{Record, has_records};
use plan::plan::Plan;

/// Whether there is a record for each rank, and a home for each rank and element.
pub fn has_room<M: ReadMemory>(plan: &Plan, memory: &M, records: &[Record]) -> bool
    ensures { result ≡ roomy (tree_of plan.now) (M.ReadMemory.words memory.now) records.now }
{
    has_records(plan, records) && plan.homes() <= memory.count()
}
