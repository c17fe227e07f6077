//! The two asks: an idle rank begins to write or to read. They touch no word.

ghost use Rattle.std.specs.Prelude.{◌≡◌};
ghost use Rattle.plan.specs.Trees.{tree_of};
ghost use Rattle.lock.specs.Turns.{asked, asked_to_read, asked_to_write};

use places::answer::Answer;
use places::place::{Place, Standing};
use places::record::{Record, place_of, record_of};
use plan::plan::Plan;
use refusal::Refusal;

// Sends an idle rank to a place.
fn ask(plan: &Plan, records: &mut [Record], rank: u16, to: Place) -> Result<Answer, Refusal>
    ensures value { result ≡ (asked (tree_of plan.now) records.old rank to).answer }
    ensures records { records.new
        ≡ (asked (tree_of plan.now) records.old rank to).records }
{
    if place_of(plan, records, rank)?.standing() != Standing::Resting {
        return Err(Refusal::NotIdle);
    }
    records[rank as usize - 1] = record_of(to);
    Ok(Answer::Asked)
}

/// An idle rank asks to write: it begins at its own level. Refused by 5, 6, 7 or 8.
pub fn ask_to_write(plan: &Plan, records: &mut [Record], rank: u16) -> Result<Answer, Refusal>
    ensures value { result ≡ (asked_to_write (tree_of plan.now) records.old rank).answer }
    ensures records { records.new
        ≡ (asked_to_write (tree_of plan.now) records.old rank).records }
{
    let level = plan.own_level(rank);
    ask(plan, records, rank, Place::W1 { level })
}

/// An idle rank asks to read. Refused by 5, 6, 7 or 8.
pub fn ask_to_read(plan: &Plan, records: &mut [Record], rank: u16) -> Result<Answer, Refusal>
    ensures value { result ≡ (asked_to_read (tree_of plan.now) records.old rank).answer }
    ensures records { records.new
        ≡ (asked_to_read (tree_of plan.now) records.old rank).records }
{
    ask(plan, records, rank, Place::R1)
}
