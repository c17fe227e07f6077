//! Every row of the table, in every memory: what rank 4 does at a place when it finds a word there.

use crate::tests::given::{
    ENTERED as IN, FREE, IDLE, MOVED, SPOILED as BAD, WAITING as STAYS, plan_a,
};
use lock::step::step;
use memory::{
    ARRIVE, ByteMemory, DEPART, JoinedMemory, Memory, NEXT, ReadMemory, STATUS, TAIL, WordMemory,
};
use places::answer::Answer;
use places::record::Record;
use places::status::{MODE, PARENT, WAIT, WRITE_BIT};
use places::touch::next_touch;
use plan::plan::Plan;
use refusal::Refusal;
use std::process::Abort;
use std::test::Fail;

/// A record's place, level, home, number and counter: numbers, as they were worked out beforehand.
type Numbers = (u8, u8, u64, u64, u16);

const F: u64 = WRITE_BIT;

const MAX: u64 = u64::MAX;

/// A record of rank 4; the operation (1 get, 2 put, 3 swap, 4 add, 5 cas), home and offset that its step touches.
static TOUCHES: [(Numbers, (u8, u64, u64)); 40] = [
    ((0, 0, 0, 0, 0), (0, 0, 0)), // idle
    ((1, 2, 0, 0, 0), (2, 4, NEXT)), // W1
    ((1, 1, 0, 0, 0), (2, 8, NEXT)), // W1
    ((2, 2, 0, 0, 0), (2, 4, STATUS)), // W2
    ((3, 2, 0, 0, 0), (3, 8, TAIL)), // W3
    ((3, 1, 0, 0, 0), (3, 6, TAIL)), // W3
    ((4, 2, 5, 0, 0), (2, 5, NEXT)), // W4
    ((4, 1, 7, 0, 0), (2, 7, NEXT)), // W4
    ((5, 2, 0, 0, 0), (1, 4, STATUS)), // W5
    ((5, 1, 0, 0, 0), (1, 8, STATUS)), // W5
    ((6, 2, 0, 0, 0), (2, 4, STATUS)), // W6
    ((6, 1, 0, 0, 0), (2, 8, STATUS)), // W6
    ((7, 0, 0, 0, 0), (4, 1, ARRIVE)), // W7
    ((7, 0, 0, 0, 2), (4, 5, ARRIVE)), // W7
    ((8, 0, 0, 0, 1), (1, 3, ARRIVE)), // W8
    ((9, 0, 0, F + 10, 0), (1, 1, DEPART)), // W9
    ((9, 0, 0, F, 2), (1, 5, DEPART)), // W9
    ((10, 2, 0, 0, 0), (1, 4, STATUS)), // U1
    ((11, 2, 0, 0, 0), (1, 4, NEXT)), // U2
    ((12, 2, 5, 1, 0), (2, 5, STATUS)), // U3
    ((12, 1, 7, 1, 0), (2, 7, STATUS)), // U3
    ((13, 0, 0, 0, 0), (1, 8, STATUS)), // U4
    ((14, 0, 0, 0, 0), (1, 8, NEXT)), // U5
    ((15, 0, 0, 0, 1), (3, 3, DEPART)), // U6
    ((16, 0, 0, 3, 1), (4, 3, ARRIVE)), // U7
    ((16, 0, 0, 0, 2), (4, 5, ARRIVE)), // U7
    ((17, 1, 0, 0, 0), (1, 8, NEXT)), // U8
    ((18, 1, 7, 0, 0), (2, 7, STATUS)), // U9
    ((18, 2, 5, 0, 0), (2, 5, STATUS)), // U9
    ((19, 1, 0, 0, 0), (5, 6, TAIL)), // U10
    ((19, 2, 0, 0, 0), (5, 8, TAIL)), // U10
    ((20, 0, 0, 0, 0), (4, 3, ARRIVE)), // R1
    ((21, 0, 0, 0, 0), (4, 3, ARRIVE)), // R2
    ((22, 0, 0, 0, 0), (1, 3, ARRIVE)), // R3
    ((23, 0, 0, 0, 0), (1, 6, TAIL)), // R4
    ((24, 0, 0, 0, 0), (3, 3, DEPART)), // R5
    ((25, 0, 0, 2, 0), (4, 3, ARRIVE)), // R6
    ((26, 0, 0, 0, 0), (4, 3, DEPART)), // R7
    ((27, 0, 0, 0, 0), (0, 0, 0)), // in as writer
    ((28, 0, 0, 0, 0), (0, 0, 0)), // in as reader
];

/// The record before a step; the word found; the answer; the record after; the word left.
#[derive(Clone, Copy)]
struct Row(Numbers, u64, Result<Answer, Refusal>, Numbers, u64);

static ROWS: [Row; 61] = [
    Row((1, 2, 0, 0, 0), 9, MOVED, (2, 2, 0, 0, 0), 0), // W1
    Row((1, 1, 0, 0, 0), 9, MOVED, (2, 1, 0, 0, 0), 0), // W1
    Row((2, 2, 0, 0, 0), 9, MOVED, (3, 2, 0, 0, 0), WAIT), // W2
    Row((3, 2, 0, 0, 0), 0, MOVED, (6, 2, 0, 0, 0), 4), // W3
    Row((3, 2, 0, 0, 0), 5, MOVED, (4, 2, 5, 0, 0), 4), // W3
    Row((3, 1, 0, 0, 0), 7, MOVED, (4, 1, 7, 0, 0), 8), // W3
    Row((4, 2, 5, 0, 0), 0, MOVED, (5, 2, 0, 0, 0), 4), // W4
    Row((4, 1, 7, 0, 0), 0, MOVED, (5, 1, 0, 0, 0), 8), // W4
    Row((5, 2, 0, 0, 0), WAIT, STAYS, (5, 2, 0, 0, 0), WAIT), // W5
    Row((5, 2, 0, 0, 0), PARENT, MOVED, (6, 2, 0, 0, 0), PARENT), // W5
    Row((5, 1, 0, 0, 0), MODE, MOVED, (6, 1, 0, 0, 0), MODE), // W5
    Row((5, 2, 0, 0, 0), 0, IN, (27, 0, 0, 0, 0), 0), // W5
    Row((5, 1, 0, 0, 0), 1000, IN, (27, 0, 0, 0, 0), 1000), // W5
    Row((5, 1, 0, 0, 0), 1001, BAD, (5, 1, 0, 0, 0), 1001), // W5
    Row((5, 1, 0, 0, 0), PARENT, BAD, (5, 1, 0, 0, 0), PARENT), // W5
    Row((5, 2, 0, 0, 0), MODE, BAD, (5, 2, 0, 0, 0), MODE), // W5
    Row((5, 2, 0, 0, 0), WAIT - 1, BAD, (5, 2, 0, 0, 0), WAIT - 1), // W5
    Row((5, 1, 0, 0, 0), MODE + 1, BAD, (5, 1, 0, 0, 0), MODE + 1), // W5
    Row((6, 2, 0, 0, 0), WAIT, MOVED, (1, 1, 0, 0, 0), 0), // W6
    Row((6, 1, 0, 0, 0), WAIT, MOVED, (7, 0, 0, 0, 0), 0), // W6
    Row((7, 0, 0, 0, 0), 1, MOVED, (7, 0, 0, 0, 1), F + 1), // W7
    Row((7, 0, 0, 0, 2), 0, MOVED, (8, 0, 0, 0, 0), F), // W7
    Row((8, 0, 0, 0, 1), F + 10, MOVED, (9, 0, 0, F + 10, 1), F + 10), // W8
    Row((9, 0, 0, F + 10, 0), 5, STAYS, (8, 0, 0, 0, 0), 5), // W9
    Row((9, 0, 0, F + 10, 0), 10, MOVED, (8, 0, 0, 0, 1), 10), // W9
    Row((9, 0, 0, F, 2), 0, IN, (27, 0, 0, 0, 0), 0), // W9
    Row((9, 0, 0, F - 1, 2), MAX, IN, (27, 0, 0, 0, 0), MAX), // W9
    Row((10, 2, 0, 0, 0), 1, MOVED, (11, 2, 0, 1, 0), 1), // U1
    Row((11, 2, 0, 0, 0), 5, MOVED, (12, 2, 5, 1, 0), 5), // U2
    Row((11, 2, 0, 1, 0), 5, MOVED, (13, 0, 0, 0, 0), 5), // U2
    Row((11, 2, 0, 0, 0), 0, MOVED, (13, 0, 0, 0, 0), 0), // U2
    Row((12, 2, 5, 1, 0), WAIT, FREE, (0, 0, 0, 0, 0), 1), // U3
    Row((12, 1, 7, 1, 0), WAIT, MOVED, (17, 2, 0, 0, 0), 1), // U3
    Row((13, 0, 0, 0, 0), 1, MOVED, (14, 0, 0, 1, 0), 1), // U4
    Row((14, 0, 0, 0, 0), 7, MOVED, (12, 1, 7, 1, 0), 7), // U5
    Row((14, 0, 0, 1, 0), 7, MOVED, (15, 0, 0, 0, 0), 7), // U5
    Row((14, 0, 0, 0, 0), 0, MOVED, (15, 0, 0, 0, 0), 0), // U5
    Row((15, 0, 0, 0, 1), 3, MOVED, (16, 0, 0, 3, 1), 0), // U6
    Row((16, 0, 0, 3, 1), F + 4, MOVED, (15, 0, 0, 0, 2), 1), // U7
    Row((16, 0, 0, 0, 2), F, MOVED, (17, 1, 0, 0, 0), 0), // U7
    Row((17, 1, 0, 0, 0), 0, MOVED, (19, 1, 0, 0, 0), 0), // U8
    Row((17, 1, 0, 0, 0), 7, MOVED, (18, 1, 7, 0, 0), 7), // U8
    Row((18, 1, 7, 0, 0), WAIT, MOVED, (17, 2, 0, 0, 0), MODE), // U9
    Row((18, 2, 5, 0, 0), WAIT, FREE, (0, 0, 0, 0, 0), PARENT), // U9
    Row((19, 1, 0, 0, 0), 8, MOVED, (17, 2, 0, 0, 0), 0), // U10
    Row((19, 1, 0, 0, 0), 7, STAYS, (17, 1, 0, 0, 0), 7), // U10
    Row((19, 2, 0, 0, 0), 4, FREE, (0, 0, 0, 0, 0), 0), // U10
    Row((20, 0, 0, 0, 0), 1, IN, (28, 0, 0, 0, 0), 2), // R1
    Row((20, 0, 0, 0, 0), 2, MOVED, (21, 0, 0, 0, 0), 3), // R1
    Row((20, 0, 0, 0, 0), F, MOVED, (21, 0, 0, 0, 0), F + 1), // R1
    Row((21, 0, 0, 0, 0), 3, MOVED, (22, 0, 0, 0, 0), 2), // R2
    Row((21, 0, 0, 0, 0), F + 1, MOVED, (22, 0, 0, 0, 0), F), // R2
    Row((22, 0, 0, 0, 0), 1, MOVED, (20, 0, 0, 0, 0), 1), // R3
    Row((22, 0, 0, 0, 0), 2, MOVED, (23, 0, 0, 0, 0), 2), // R3
    Row((22, 0, 0, 0, 0), F - 1, MOVED, (23, 0, 0, 0, 0), F - 1), // R3
    Row((22, 0, 0, 0, 0), F, STAYS, (22, 0, 0, 0, 0), F), // R3
    Row((23, 0, 0, 0, 0), 0, MOVED, (24, 0, 0, 0, 0), 0), // R4
    Row((23, 0, 0, 0, 0), 7, STAYS, (22, 0, 0, 0, 0), 7), // R4
    Row((24, 0, 0, 0, 0), 2, MOVED, (25, 0, 0, 2, 0), 0), // R5
    Row((25, 0, 0, 2, 0), F + 2, MOVED, (22, 0, 0, 0, 0), F), // R6
    Row((26, 0, 0, 0, 0), 0, FREE, (0, 0, 0, 0, 0), 1), // R7
];

// No From: neither type is of this crate.
fn record((place, level, home, number, counter): Numbers) -> Record {
    Record {
        place,
        level,
        home,
        number,
        counter,
    }
}

// The record of rank 4, among idle ones.
fn of_rank_4(numbers: Numbers) -> [Record; 5] {
    let mut records = [IDLE; 5];
    records[3] = record(numbers);
    records
}

// The memory gives the row.
fn gives<M: Memory>(rt: &impl Abort, plan: &Plan, memory: &mut M, row: Row) -> Result<(), Fail> {
    let Row(before, found, answer, after, left) = row;
    let mut records = of_rank_4(before);
    let touch = next_touch(plan, &records, 4)?;
    memory.put(touch.home, touch.offset, found)?;
    assert_eq!(rt; step(plan, memory, &mut records, 4), answer);
    assert_eq!(rt; records, of_rank_4(after));
    assert_eq!(rt; memory.get(touch.home, touch.offset), Ok(left));
    Ok(())
}

// The memory, of 8 homes, gives every row; called once for each type of memory.
fn run<M: Memory>(rt: &impl Abort, plan: &Plan, memory: &mut M) -> Result<(), Fail> {
    for &row in &ROWS {
        gives(rt, plan, memory, row)?;
    }
    Ok(())
}

#[test]
fn the_touch_of_every_place(rt: HostRuntime) -> Result<(), Fail> {
    let plan = plan_a(rt.alloc())?;
    for &(numbers, told) in &TOUCHES {
        let touch = next_touch(&plan, &of_rank_4(numbers), 4)?;
        assert_eq!(rt; (touch.operation, touch.home, touch.offset), told);
    }
    Ok(())
}

#[test]
fn every_row_in_every_memory(rt: HostRuntime) -> Result<(), Fail> {
    let plan = plan_a(rt.alloc())?;
    run(&rt, &plan, &mut WordMemory::new(&mut [7u64; 40]))?;
    run(&rt, &plan, &mut ByteMemory::new(&mut [7u8; 320]))?;
    let mut near = [7u64; 20];
    let mut far = [7u8; 160];
    run(
        &rt,
        &plan,
        &mut JoinedMemory::new(WordMemory::new(&mut near), ByteMemory::new(&mut far)),
    )
}
