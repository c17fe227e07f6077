//! A whole order: its plan and the calls behind it.

ghost use Rattle.std.specs.Prelude.{◌≡◌};
ghost use Rattle.order.specs.Whole.{AnswersWhole, read_whole};

use crate::calls::{CallsRead, read_calls};
use crate::fault::Fault;
use crate::read::{PlanRead, read_plan};
use law::call::Call;
use plan::plan::Plan;
use refusal::Refusal;
use std::alloc::Global;

/// The plan of an order, its calls up to the end or up to the first bad one, and the fault of that one.
// No Result: the calls before a bad one are run.
#[derive(Drop)]
pub struct OrderRead {
    pub plan: Plan,
    pub calls: Vec<Call>,
    pub fault: Option<Fault>,
}

/// Reads a whole order; a fault before or at G leaves no plan.
pub fn read_order(heap: Global, order: &[u8]) -> Result<OrderRead, Fault>
    ensures { AnswersWhole result (read_whole order.now) }
{
    let PlanRead { plan, end } = read_plan(heap, order)?;
    let CallsRead { calls, fault } = read_calls(heap, order, end).map_err(|_| Fault::new(
        Refusal::OutOfMemory,
        end,
    ))?;
    Ok(OrderRead { plan, calls, fault })
}
