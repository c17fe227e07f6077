//! The run of an order: from its bytes to the lines that tell it.

ghost use Rattle.std.specs.Prelude.{◌≡◌, Ok, Err, MatchResult, OnOk};
ghost use Rattle.refusal.specs.Numbers.{IsOnSheet};
ghost use Rattle.order.specs.Whole.{read_whole};
ghost use Rattle.transcript.specs.Transcripts.{LawfulRun, transcript};

use crate::lines::tell;
use job::run::run_job;
use memory::ByteMemory;
use order::whole::{OrderRead, read_order};
use places::answer::Answer;
use places::record::Record;
use refusal::Refusal;
use std::alloc::Global;

// Runs an order over a byte memory in the caller's window, with the caller's tables of records and answers, and
// answers the lines of the run: one for each call, and one for the fault that ends a bad order.
// Refusals are those of the job, and want of memory, which has no number.
// Where it answers, the law holds of the order's plan and calls. The lent tables are scratch room, and no struct holds
// them, since no other function takes the three.
pub(crate) fn run_order(
    heap: Global,
    order: &[u8],
    window: &mut [u8],
    records: &mut [Record],
    answers: &mut [Result<Answer, Refusal>],
) -> Result<Vec<u8>, Refusal>
    ensures value { MatchResult result
        (λ v. transcript order.now window.old records.old answers.old
        ≡ Ok v.items)
        (λ e. IsOnSheet e
        → transcript order.now window.old records.old answers.old
        ≡ Err e) }
    ensures law { OnOk result (LawfulRun (read_whole order.now) window.old
        records.old) }
{
    match read_order(heap, order) {
        Ok(OrderRead { plan, calls, fault }) => {
            let mut memory = ByteMemory::new(window);
            run_job(&plan, &mut memory, records, &calls, answers)?;
            Ok(tell(heap, &calls, answers, fault)?)
        }
        Err(fault) if fault.refusal.number().is_none() => Err(fault.refusal),
        Err(fault) => Ok(tell(heap, &[], &[], Some(fault))?),
    }
}
