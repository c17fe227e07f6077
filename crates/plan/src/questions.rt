//! Questions about a rank of any number: an unknown rank is refused by 6.
//! A level that is not on the rank's way from its own up to 1 has no element and no home: the answer is 0 then, as it is
//! from the plan's own methods; an `Option` here would be a second form of none.
//!
//! Each is two lines, the test and one method: a function that took the method would be no shorter to call. Plan and rank
//! are passed side by side, since the rank may be any number and is asked about once.

ghost use Rattle.std.specs.Prelude.{◌≡◌};
ghost use Rattle.plan.specs.Trees.{
  asked,
  element_at,
  node_home,
  on_way,
  own_counter,
  own_counter_home,
  own_element,
  own_level,
  queue_home,
  tree_of,
};
ghost use Rattle.plan.specs.Shapes.{within};

use crate::plan::Plan;
use refusal::Refusal;

// Refuses a rank that the plan does not have.
fn known(plan: &Plan, rank: u16) -> Result<(), Refusal>
    ensures { result ≡ asked (tree_of plan.now) rank tt }
{
    if plan.has_rank(rank) {
        Ok(())
    } else {
        Err(Refusal::UnknownRank)
    }
}

// Whether a level lies on a rank's way up.
fn is_on_way(plan: &Plan, rank: u16, level: u8) -> Result<bool, Refusal>
    ensures { result ≡ asked (tree_of plan.now) rank
        (within 1 (own_level (tree_of plan.now) rank) level) }
{
    known(plan, rank)?;
    Ok((1..=plan.own_level(rank)).contains(&level))
}

/// The element on which a rank hangs.
pub fn element_of_rank(plan: &Plan, rank: u16) -> Result<u16, Refusal>
    ensures { result ≡
        asked (tree_of plan.now) rank (own_element (tree_of plan.now) rank) }
{
    known(plan, rank)?;
    Ok(plan.own_element(rank))
}

/// The level of that element.
pub fn level_of_rank(plan: &Plan, rank: u16) -> Result<u8, Refusal>
    ensures { result ≡
        asked (tree_of plan.now) rank (own_level (tree_of plan.now) rank) }
{
    known(plan, rank)?;
    Ok(plan.own_level(rank))
}

/// The element at a level of a rank's way up, or 0.
pub fn element_above(plan: &Plan, rank: u16, level: u8) -> Result<u16, Refusal>
    ensures { result ≡ asked (tree_of plan.now) rank
        (on_way (tree_of plan.now) rank level (element_at (tree_of plan.now) rank level)) }
{
    if !is_on_way(plan, rank, level)? {
        return Ok(0);
    }
    Ok(plan.element_at(rank, level))
}

/// The home that stands for a rank in the queue of a level, or 0.
pub fn node_of_rank(plan: &Plan, rank: u16, level: u8) -> Result<u64, Refusal>
    ensures { result ≡ asked (tree_of plan.now) rank
        (on_way (tree_of plan.now) rank level (node_home (tree_of plan.now) rank level)) }
{
    if !is_on_way(plan, rank, level)? {
        return Ok(0);
    }
    Ok(plan.node_home(rank, level))
}

/// The home whose queue a rank joins at a level, or 0.
pub fn queue_of_rank(plan: &Plan, rank: u16, level: u8) -> Result<u64, Refusal>
    ensures { result ≡ asked (tree_of plan.now) rank
        (on_way (tree_of plan.now) rank level (queue_home (tree_of plan.now) rank level)) }
{
    if !is_on_way(plan, rank, level)? {
        return Ok(0);
    }
    Ok(plan.queue_home(rank, level))
}

/// The counter of a rank.
pub fn counter_of_rank(plan: &Plan, rank: u16) -> Result<u16, Refusal>
    ensures { result ≡
        asked (tree_of plan.now) rank (own_counter (tree_of plan.now) rank) }
{
    known(plan, rank)?;
    Ok(plan.own_counter(rank))
}

/// The home of that counter.
pub fn counter_home_of_rank(plan: &Plan, rank: u16) -> Result<u64, Refusal>
    ensures { result ≡
        asked (tree_of plan.now) rank (own_counter_home (tree_of plan.now) rank) }
{
    known(plan, rank)?;
    Ok(plan.own_counter_home(rank))
}
