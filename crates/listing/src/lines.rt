//! One line of a listing at a time, each ended by a line feed.

ghost use Rattle.std.specs.Prelude.{◌≡◌, ◌-◌, IfOk, string_bytes};
ghost use Rattle.plan.specs.Trees.{tree_of};
ghost use Rattle.listing.specs.Lines.{bad_line, counter_line, element_line, plan_line, rank_line, word};

use crate::numbered::all_texts;
use plan::plan::Plan;
use std::alloc::{AllocError, Global};

/// The line of the plan as a whole.
pub fn plan_line(heap: Global, plan: &Plan) -> Result<String, AllocError>
    ensures { IfOk result (λ s. string_bytes s ≡ plan_line (tree_of plan.now)) }
{
    let shape = plan.shape();
    let ranks = shape.ranks;
    let elements = shape.elements;
    let levels = shape.levels;
    let counters = plan.counters();
    let homes = plan.homes();
    format!(in heap;
        "plan ranks {ranks} elements {elements} levels {levels} counters {counters} homes {homes}\n"
    )
}

/// The line of an element.
pub fn element_line(heap: Global, plan: &Plan, element: u16) -> Result<String, AllocError>
    ensures { IfOk result (λ s. string_bytes s ≡ element_line (tree_of plan.now) element) }
{
    let level = plan.level(element);
    let home = plan.element_home(element);
    let parent = plan.parent(element);
    format!(in heap; "element {element} level {level} home {home} parent {parent}\n")
}

/// The line of a counter.
pub fn counter_line(heap: Global, plan: &Plan, counter: u16) -> Result<String, AllocError>
    ensures { IfOk result (λ s. string_bytes s ≡ counter_line (tree_of plan.now) counter) }
{
    let home = plan.counter_home(counter);
    format!(in heap; "counter {counter} home {home}\n")
}

// A number behind a space.
fn word(heap: Global, number: u64) -> Result<String, AllocError>
    ensures { IfOk result (λ s. string_bytes s ≡ word number) }
{
    format!(in heap; " {number}")
}

// The level so many above another, or 0 where there is none.
fn level_above(level: u8, distance: u16) -> u8
    ensures { result ≡ level - distance }
{
    (level as u16).saturating_sub(distance) as u8
}

/// The line of a rank.
// Plan and rank side by side, as in `places`.
pub fn rank_line(heap: Global, plan: &Plan, rank: u16) -> Result<String, AllocError>
    ensures { IfOk result (λ s. string_bytes s ≡ rank_line (tree_of plan.now) rank) }
{
    let element = plan.own_element(rank);
    let counter = plan.own_counter_home(rank);
    let own = plan.own_level(rank);
    let nodes = all_texts(heap, 0, own as u16, |above| {
        word(heap, plan.node_home(rank, level_above(own, above)))
    })?;
    let queues = all_texts(heap, 0, own as u16, |above| {
        word(heap, plan.queue_home(rank, level_above(own, above)))
    })?;
    format!(in heap;
        "rank {rank} element {element} counter {counter} nodes{nodes} queues{queues}\n"
    )
}

/// The line of a bad order.
// The number as it is printed: any number has a line, and a Refusal in its place would ask more of callers. Not one
// function with the line of a run: that has 24 bytes and no heap.
pub fn bad_line(heap: Global, number: u8, offset: usize) -> Result<String, AllocError>
    ensures { IfOk result (λ s. string_bytes s ≡ bad_line number offset) }
{
    format!(in heap; "bad {number} at {offset}\n")
}
