//! The leave: a rank that is in begins to go out. It touches no word.

ghost use Rattle.std.specs.Prelude.{◌≡◌};
ghost use Rattle.plan.specs.Trees.{tree_of};
ghost use Rattle.lock.specs.Turns.{exit_of, left};

use places::answer::Answer;
use places::place::{Place, Standing};
use places::record::{Record, place_of, record_of};
use plan::plan::Plan;
use refusal::Refusal;

// Where a writer begins to leave: at its own level, which may be level 1.
fn exit_place(plan: &Plan, rank: u16) -> Place
    ensures { result ≡ exit_of (tree_of plan.now) rank }
{
    let level = plan.own_level(rank);
    if level >= 2 {
        Place::U1 { level }
    } else {
        Place::U4
    }
}

/// A rank that is in leaves, as writer or as reader. Refused by 5, 6, 7 or 10.
pub fn leave(plan: &Plan, records: &mut [Record], rank: u16) -> Result<Answer, Refusal>
    ensures value { result ≡ (left (tree_of plan.now) records.old rank).answer }
    ensures records { records.new
        ≡ (left (tree_of plan.now) records.old rank).records }
{
    let place = place_of(plan, records, rank)?;
    let to = match place.standing() {
        Standing::Resting | Standing::UnderWay => return Err(Refusal::NotIn),
        Standing::Writing => exit_place(plan, rank),
        Standing::Reading => Place::R7,
    };
    records[rank as usize - 1] = record_of(to);
    Ok(Answer::Leaving)
}
