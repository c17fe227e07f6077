//! What a rank's next step will touch, by a constant table of the places.

ghost use Rattle.std.specs.Prelude.{◌≡◌};
ghost use Rattle.plan.specs.Trees.{tree_of};
ghost use Rattle.places.specs.Table.{access_of};
ghost use Rattle.places.specs.Touches.{touched, touching};

use crate::access::next_access;
use crate::place::Place;
use crate::record::{Record, place_of, record_of};
use memory::{ARRIVE, DEPART, NEXT, STATUS, TAIL};
use plan::plan::Plan;
use refusal::Refusal;

/// An operation (1 get, 2 put, 3 swap, 4 add, 5 cas), its home and its offset; three zeros for none.
/// The operation is a number by the lock's interface: whoever asks what a step touches is told numbers.
#[derive(Clone, Copy, PartialEq, Eq, Debug)]
pub struct Touch {
    pub operation: u8,
    pub home: u64,
    pub offset: u64,
}

// What a touch does to its word.
#[derive(Clone, Copy)]
enum Kind {
    Nothing = 0,
    Get = 1,
    Put = 2,
    Swap = 3,
    Add = 4,
    Cas = 5,
}

// The operation and the offset of each place, by its number: a constant table, by a rule of the project.
const TOUCHES: [(Kind, u64); 29] = [
    (Kind::Nothing, 0), // idle
    (Kind::Put, NEXT), // W1
    (Kind::Put, STATUS), // W2
    (Kind::Swap, TAIL), // W3
    (Kind::Put, NEXT), // W4
    (Kind::Get, STATUS), // W5
    (Kind::Put, STATUS), // W6
    (Kind::Add, ARRIVE), // W7
    (Kind::Get, ARRIVE), // W8
    (Kind::Get, DEPART), // W9
    (Kind::Get, STATUS), // U1
    (Kind::Get, NEXT), // U2
    (Kind::Put, STATUS), // U3
    (Kind::Get, STATUS), // U4
    (Kind::Get, NEXT), // U5
    (Kind::Swap, DEPART), // U6
    (Kind::Add, ARRIVE), // U7
    (Kind::Get, NEXT), // U8
    (Kind::Put, STATUS), // U9
    (Kind::Cas, TAIL), // U10
    (Kind::Add, ARRIVE), // R1
    (Kind::Add, ARRIVE), // R2
    (Kind::Get, ARRIVE), // R3
    (Kind::Get, TAIL), // R4
    (Kind::Swap, DEPART), // R5
    (Kind::Add, ARRIVE), // R6
    (Kind::Add, DEPART), // R7
    (Kind::Nothing, 0), // in as writer
    (Kind::Nothing, 0), // in as reader
];

// The home of a place's access, or 0.
fn home_at(plan: &Plan, rank: u16, place: Place) -> u64
    ensures { result ≡ (touching (access_of (tree_of plan.now) rank place)).home }
{
    next_access(plan, rank, place).map_or(0, |access| access.home)
}

// What a rank at a place will touch.
fn touch_at(plan: &Plan, rank: u16, place: Place) -> Touch
    ensures { result ≡ touching (access_of (tree_of plan.now) rank place) }
{
    let (kind, offset) = TOUCHES[record_of(place).place as usize];
    Touch {
        operation: kind as u8,
        home: home_at(plan, rank, place),
        offset,
    }
}

/// What a rank's next step will touch: refused by 5, 6 or 7.
pub fn next_touch(plan: &Plan, records: &[Record], rank: u16) -> Result<Touch, Refusal>
    ensures { result ≡ touched (tree_of plan.now) records.now rank }
{
    let place = place_of(plan, records, rank)?;
    Ok(touch_at(plan, rank, place))
}
