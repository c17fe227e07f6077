//! The whole report on an order: the listing of its plan, or the line that says what is wrong.

ghost use Rattle.std.specs.Prelude.{◌≡◌, IfOk, string_bytes};
ghost use Rattle.plan.specs.Trees.{tree_of};
ghost use Rattle.listing.specs.Reports.{listing, report_of};

use crate::lines::{bad_line, counter_line, element_line, plan_line, rank_line};
use crate::numbered::all_texts;
use order::read::read_plan;
use plan::plan::Plan;
use std::alloc::{AllocError, Global};

/// The plan's line, then a line for each element, counter and rank.
pub fn list_plan(heap: Global, plan: &Plan) -> Result<String, AllocError>
    ensures { IfOk result (λ s. string_bytes s ≡ listing (tree_of plan.now)) }
{
    let shape = plan.shape();
    let elements = all_texts(heap, 1, shape.elements, |n| element_line(heap, plan, n))?;
    let counters = all_texts(heap, 0, plan.counters(), |n| counter_line(heap, plan, n))?;
    let ranks = all_texts(heap, 1, shape.ranks, |n| rank_line(heap, plan, n))?;
    let mut text = plan_line(heap, plan)?;
    text.push_str(elements.as_str())?;
    text.push_str(counters.as_str())?;
    text.push_str(ranks.as_str())?;
    Ok(text)
}

/// The listing of the plan at the front of an order, or the line of a bad order and nothing else.
pub fn report(heap: Global, order: &[u8]) -> Result<String, AllocError>
    ensures { IfOk result (λ s. string_bytes s ≡ report_of order.now) }
{
    match read_plan(heap, order) {
        Ok(read) => list_plan(heap, &read.plan),
        Err(fault) => {
            // only want of memory has no number
            let number = fault.refusal.number().ok_or(AllocError)?;
            bad_line(heap, number, fault.offset)
        }
    }
}
