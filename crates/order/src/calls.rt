//! The reader of the calls behind G.

ghost use Rattle.std.specs.Prelude.{◌≡◌, IfOk};
ghost use Rattle.order.specs.Calls.{call_at, named_call, script, script_at};

use crate::command::Reader;
use crate::fault::Fault;
use law::call::Call;
use refusal::Refusal;
use std::alloc::{AllocError, Global};

/// The calls of an order up to its end, or up to the first bad one, with its fault.
// No Result: the calls before a bad one count too, so both stand here.
#[derive(Drop)]
pub struct CallsRead {
    pub calls: Vec<Call>,
    pub fault: Option<Fault>,
}

/// The call that a letter names, by the letters of the order's format; other letters name none.
pub fn call_of(letter: char, rank: u16) -> Option<Call>
    ensures { result ≡ named_call letter rank }
{
    match letter {
        'W' => Some(Call::AskWrite { rank }),
        'R' => Some(Call::AskRead { rank }),
        'S' => Some(Call::Step { rank }),
        'L' => Some(Call::Leave { rank }),
        _ => None,
    }
}

// The call that is read next, or why there is none.
fn read_call(reader: &Reader) -> Result<Call, Fault>
    ensures { result ≡ call_at reader.now.order.now reader.now.at }
{
    let letter = reader.letter()?;
    call_of(letter, reader.operand()).ok_or(Fault::new(Refusal::Misplaced, reader.at))
}

// The calls from a place on.
pub(crate) fn read_calls(heap: Global, order: &[u8], start: usize) -> Result<CallsRead, AllocError>
    ensures { IfOk result (λ x. script x.calls.items x.fault ≡ script_at order.now start) }
{
    let mut calls = Vec::new(heap);
    for at in (start..order.len()).step_by(3) {
        match read_call(&Reader { order, at }) {
            Ok(call) => calls.push(call)?,
            Err(fault) => return Ok(CallsRead {
                calls,
                fault: Some(fault),
            }),
        }
    }
    Ok(CallsRead { calls, fault: None })
}
