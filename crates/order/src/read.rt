//! The reader of the plan's part of an order, H to G.

ghost use Rattle.std.specs.Prelude.{◌≡◌, ◌+◌, ◌*◌, ◌≤◌, length, IfOk, Ok, Err, MatchResult};
ghost use Rattle.refusal.specs.Numbers.{IsOnSheet};
ghost use Rattle.order.specs.Commands.{run};
ghost use Rattle.order.specs.Reading.{Answers, operands, reading, shape_in};

use crate::bytes::{byte_at, bytes_at};
use crate::command::{Reader, check_command};
use crate::fault::Fault;
use plan::plan::Plan;
use plan::shape::Shape;
use refusal::Refusal;
use std::alloc::Global;

/// An order has at most this many bytes.
pub const LONGEST_ORDER: usize = 65535;

/// A plan that was read, and the offset of the byte behind its G.
#[derive(Drop)]
pub struct PlanRead {
    pub plan: Plan,
    pub end: usize,
}

// The numbers behind H, at the offsets that the format gives them.
fn read_shape(order: &[u8]) -> Shape
    ensures { result ≡ shape_in order.now }
{
    Shape {
        ranks: u16::from_be_bytes(bytes_at(order, 1)),
        elements: u16::from_be_bytes(bytes_at(order, 3)),
        levels: byte_at(order, 5),
        spacing: u16::from_be_bytes(bytes_at(order, 6)),
        reader_threshold: u32::from_be_bytes(bytes_at(order, 8)),
        writer_threshold: u16::from_be_bytes(bytes_at(order, 12)),
        level2_threshold: u16::from_be_bytes(bytes_at(order, 14)),
        level3_threshold: u16::from_be_bytes(bytes_at(order, 16)),
        level4_threshold: u16::from_be_bytes(bytes_at(order, 18)),
    }
}

// The operands of `count` commands of one letter of the format, behind which the reader then stands; or the first fault.
fn read_operands(
    heap: Global,
    reader: &mut Reader,
    letter: char,
    count: u16,
) -> Result<Vec<u16>, Fault>
    ensures value { MatchResult result
        (λ v. (run reader.old.order.now letter reader.old.at count ≡ Ok tt)
        × (v.items ≡ operands reader.old.order.now reader.old.at count)
        × (reader.new.at ≡ reader.old.at + 3 * count))
        (λ f. IsOnSheet f.refusal
        → run reader.old.order.now letter reader.old.at count ≡ Err f) }
    ensures order { reader.new.order.now ≡ reader.old.order.now }
{
    let mut list = Vec::new(heap);
    // a copy: in the lent reader, the place would be stored and loaded again at each command
    let mut own = *reader;
    for _ in 0..count {
        own.check(letter)?;
        list.push(own.operand())
            .map_err(|_| Fault::new(Refusal::OutOfMemory, own.at))?;
        own.at += 3;
    }
    *reader = own;
    Ok(list)
}

/// The plan at the front of an order and the offset behind its G, or the first fault.
/// What stands behind G is not looked at.
pub fn read_plan(heap: Global, order: &[u8]) -> Result<PlanRead, Fault>
    ensures value { Answers result (reading order.now) }
    ensures short { IfOk result (λ x. (length order.now ≤ 65535) × (x.end ≤ length order.now)) }
{
    if order.len() > LONGEST_ORDER {
        return Err(Fault::new(Refusal::OrderTooLong, LONGEST_ORDER));
    }
    check_command(order, 0, 'H')?;
    let shape = read_shape(order);
    let mut reader = Reader { order, at: 20 };
    let parents = read_operands(heap, &mut reader, 'E', shape.elements.saturating_sub(1))?;
    let rank_elements = read_operands(heap, &mut reader, 'K', shape.ranks)?;
    reader.check('G')?;
    let made = Plan::new(shape, parents, rank_elements);
    let plan = made.map_err(|refusal| Fault::new(refusal, reader.at))?;
    Ok(PlanRead {
        plan,
        end: reader.at + 1,
    })
}
