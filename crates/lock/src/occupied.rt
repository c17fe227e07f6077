//! Whether some rank is in, by the records alone.

ghost use Rattle.std.specs.Prelude.{◌≡◌, ◌≤◌, length};
ghost use Rattle.plan.specs.Trees.{tree_of};
ghost use Rattle.lock.specs.Layouts.{any_in, is_in, occupied_by};

use places::place::Place;
use places::record::{Record, has_records};
use plan::plan::Plan;
use refusal::Refusal;

// The record says that its rank is in, as writer or as reader.
fn says_in(r: &Record) -> bool
    ensures { result ≡ is_in r.now }
{
    matches!(Place::try_from(*r), Ok(Place::Writer | Place::Reader))
}

// Some of the first records says so. How many is told beside them, since a caller's table may be longer.
fn some_in(records: &[Record], n: usize) -> bool
    requires { n ≤ length records.now }
    ensures { result ≡ any_in records.now n }
{
    records[..n].iter().any(says_in)
}

/// Whether some rank of the plan is in; refused only by 5. A record with an unknown place says no.
pub fn is_occupied(plan: &Plan, records: &[Record]) -> Result<bool, Refusal>
    ensures { result ≡ occupied_by (tree_of plan.now) records.now }
{
    if !has_records(plan, records) {
        return Err(Refusal::TooShort);
    }
    Ok(some_in(records, plan.shape().ranks as usize))
}
