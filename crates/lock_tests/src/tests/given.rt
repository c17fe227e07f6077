//! What the tests start from: plan A, and records by their numbers.

use lock::ask::{ask_to_read, ask_to_write};
use lock::step::step;
use memory::Memory;
use places::answer::Answer;
use places::record::Record;
use places::touch::next_touch;
use plan::plan::Plan;
use plan::shape::Shape;
use refusal::Refusal;
use std::alloc::Global;
use std::process::Abort;
use std::test::Fail;

/// Ranks 1 to 3 on element 2, ranks 4 and 5 on element 3, both below element 1; counter spacing 2, reader and
/// writer threshold 2, level 2's threshold 1. So there are 8 homes, and counters 0 to 2 at homes 1, 3 and 5.
/// Written out here, to be read beside the tests.
pub(crate) fn plan_a(heap: Global) -> Result<Plan, Fail> {
    let shape = Shape {
        ranks: 5,
        elements: 3,
        levels: 2,
        spacing: 2,
        reader_threshold: 2,
        writer_threshold: 2,
        level2_threshold: 1,
        level3_threshold: 0,
        level4_threshold: 0,
    };
    let parents = [1, 1].to_vec(heap)?;
    let rank_elements = [2, 2, 2, 3, 3].to_vec(heap)?;
    Ok(Plan::new(shape, parents, rank_elements)?)
}

/// The record of an idle rank, as a literal, so that what the tests expect is their own.
pub const IDLE: Record = Record {
    place: 0,
    level: 0,
    home: 0,
    number: 0,
    counter: 0,
};

/// A place, the lowest level that it takes (0 where it uses none), and whether it uses a home, a number, a counter.
/// Numbers and flags, as the table was worked out.
#[derive(Clone, Copy)]
pub struct Uses(pub u8, pub u8, pub bool, pub bool, pub bool);

/// What each place uses.
pub const USES: [Uses; 29] = [
    Uses(0, 0, false, false, false), // idle
    Uses(1, 1, false, false, false), // W1
    Uses(2, 1, false, false, false), // W2
    Uses(3, 1, false, false, false), // W3
    Uses(4, 1, true, false, false), // W4
    Uses(5, 1, false, false, false), // W5
    Uses(6, 1, false, false, false), // W6
    Uses(7, 0, false, false, true), // W7
    Uses(8, 0, false, false, true), // W8
    Uses(9, 0, false, true, true), // W9
    Uses(10, 2, false, false, false), // U1
    Uses(11, 2, false, true, false), // U2
    Uses(12, 1, true, true, false), // U3
    Uses(13, 0, false, false, false), // U4
    Uses(14, 0, false, true, false), // U5
    Uses(15, 0, false, false, true), // U6
    Uses(16, 0, false, true, true), // U7
    Uses(17, 1, false, false, false), // U8
    Uses(18, 1, true, false, false), // U9
    Uses(19, 1, false, false, false), // U10
    Uses(20, 0, false, false, false), // R1
    Uses(21, 0, false, false, false), // R2
    Uses(22, 0, false, false, false), // R3
    Uses(23, 0, false, false, false), // R4
    Uses(24, 0, false, false, false), // R5
    Uses(25, 0, false, true, false), // R6
    Uses(26, 0, false, false, false), // R7
    Uses(27, 0, false, false, false), // in as writer
    Uses(28, 0, false, false, false), // in as reader
];

// A used field's value, or the other one.
fn either<T: Drop>(used: bool, value: T, other: T) -> T {
    if used { value } else { other }
}

/// The lowest values of the used fields, and those of `other` in the rest.
pub(crate) fn lowest(uses: Uses, other: Record) -> Record {
    let Uses(place, lowest_level, home, number, counter) = uses;
    Record {
        place,
        level: either(lowest_level > 0, lowest_level, other.level),
        home: either(home, 1, other.home),
        number: either(number, 0, other.number),
        counter: either(counter, 0, other.counter),
    }
}

/// The highest values of the used fields, and those of `other` in the rest. All that `lowest` shares are the fields.
pub(crate) fn highest(uses: Uses, other: Record) -> Record {
    let Uses(place, lowest_level, home, number, counter) = uses;
    Record {
        place,
        level: either(lowest_level > 0, 2, other.level),
        home: either(home, 8, other.home),
        number: either(number, u64::MAX, other.number),
        counter: either(counter, 2, other.counter),
    }
}

/// Each call of each of the ranks is refused so. Plan, memory and records side by side, as the calls take them.
pub(crate) fn all_refuse<M: Memory>(
    rt: &impl Abort,
    plan: &Plan,
    memory: &mut M,
    records: &mut [Record],
    ranks: &[u16],
    refusal: Refusal,
) {
    for &rank in ranks {
        assert_eq!(rt; step(plan, memory, records, rank), Err(refusal));
        assert_eq!(rt; ask_to_write(plan, records, rank), Err(refusal));
        assert_eq!(rt; ask_to_read(plan, records, rank), Err(refusal));
        assert_eq!(rt; next_touch(plan, records, rank), Err(refusal));
    }
}

pub const ASKED: Result<Answer, Refusal> = Ok(Answer::Asked);

pub const ENTERED: Result<Answer, Refusal> = Ok(Answer::Entered);

pub const FREE: Result<Answer, Refusal> = Ok(Answer::Free);

pub const WAITING: Result<Answer, Refusal> = Ok(Answer::Waiting);

pub const MOVED: Result<Answer, Refusal> = Ok(Answer::Moved);

pub const SPOILED: Result<Answer, Refusal> = Err(Refusal::Spoiled);
