//! The whole work of the program: the bytes of an order in, the lines of its run out.

ghost use Rattle.std.specs.Prelude.{◌≡◌, false, is_some, IfOk, OnOk, alloc_error};
ghost use Rattle.refusal.specs.Numbers.{number_of};
ghost use Rattle.order.specs.Whole.{read_whole};
ghost use Rattle.transcript.specs.Program.{blank_window, idle_records, lines_of};
ghost use Rattle.transcript.specs.Transcripts.{LawfulRun};

use crate::run::run_order;
use order::read::LONGEST_ORDER;
use places::answer::Answer;
use places::record::Record;
use plan::shape::{MOST_ELEMENTS, MOST_RANKS};
use refusal::Refusal;
use std::alloc::{AllocError, Global};

// Each rank and each element of a plan has a home, of 40 bytes.
const WINDOW_BYTES: usize = 40 * (MOST_RANKS + MOST_ELEMENTS);

// A call has three bytes of an order.
const MOST_CALLS: usize = LONGEST_ORDER / 3;

// The error behind a refusal without a number.
fn memory_error(refusal: Refusal) -> AllocError
    requires { is_some (number_of refusal) ≡ false }
    ensures { result ≡ alloc_error }
{
    match refusal {
        Refusal::OutOfMemory => AllocError,
        _ => unreachable!(),
    }
}

/// Runs an order over a memory of bytes with room for every plan, and answers the lines of the run.
/// They depend on the order alone; no order is refused, only memory can be wanting.
/// The law holds of the order's plan and calls.
pub fn transcribe(heap: Global, order: &[u8]) -> Result<Vec<u8>, AllocError>
    ensures lines { IfOk result (λ v. v.items ≡ lines_of order.now) }
    ensures law { OnOk result (LawfulRun (read_whole order.now) blank_window idle_records) }
{
    let mut window = vec![in heap; 0u8; WINDOW_BYTES]?;
    let mut records = vec![in heap; Record::IDLE; MOST_RANKS]?;
    let mut answers = vec![in heap; Ok(Answer::Free); MOST_CALLS]?;
    run_order(heap, order, &mut window, &mut records, &mut answers).map_err(memory_error)
}
