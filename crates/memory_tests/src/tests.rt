//! The tests: the same operations with the same answers in every memory, and the borders.

use crate::single::SingleHome;
use memory::{
    ARRIVE, ByteMemory, DEPART, JoinedMemory, MAX_HOMES, Memory, NEXT, Operation, ReadMemory,
    STATUS, TAIL, WordMemory, perform,
};
use refusal::Refusal;
use std::process::Abort;
use std::test::Fail;

const NO_HOME: Result<u64, Refusal> = Err(Refusal::UnknownHome);

const NO_OFFSET: Result<u64, Refusal> = Err(Refusal::UnknownOffset);

const FROM_0_TO_2: Operation = Operation::Cas {
    expected: 0,
    new: 2,
};

const FROM_1_TO_4: Operation = Operation::Cas {
    expected: 1,
    new: 4,
};

/// A home, an offset, an operation there, and what it must answer.
#[derive(Clone, Copy)]
struct Row(u64, u64, Operation, Result<u64, Refusal>);

/// What a memory of three homes, all words 0 at first, must answer.
const ROWS: [Row; 18] = [
    Row(1, NEXT, Operation::Get, Ok(0)),
    Row(1, NEXT, Operation::Put(7), Ok(0)),
    Row(1, NEXT, Operation::Get, Ok(7)),
    Row(1, STATUS, Operation::Get, Ok(0)),
    Row(2, TAIL, Operation::Swap(0x0102_0304_0506_0708), Ok(0)),
    Row(2, TAIL, Operation::Swap(9), Ok(0x0102_0304_0506_0708)),
    Row(3, ARRIVE, Operation::Add(5), Ok(0)),
    Row(3, ARRIVE, Operation::Add(u64::MAX), Ok(5)),
    Row(3, ARRIVE, Operation::Add(u64::MAX), Ok(4)),
    Row(3, ARRIVE, Operation::Get, Ok(3)),
    Row(3, DEPART, FROM_1_TO_4, Ok(0)),
    Row(3, DEPART, FROM_0_TO_2, Ok(0)),
    Row(3, DEPART, FROM_0_TO_2, Ok(2)),
    Row(1, NEXT, Operation::Get, Ok(7)),
    Row(0, NEXT, Operation::Put(1), NO_HOME),
    Row(4, 5, Operation::Put(1), NO_HOME),
    Row(3, 5, Operation::Put(1), NO_OFFSET),
    Row(3, u64::MAX, Operation::Get, NO_OFFSET),
];

/// The words of a table, the bytes of a window, and the homes that each has.
const SIZES: [(usize, usize, u64); 6] = [
    (0, 0, 0),
    (4, 39, 0),
    (5, 40, 1),
    (14, 119, 2),
    (20_480, 163_840, MAX_HOMES),
    (20_485, 163_880, MAX_HOMES),
];

/// The memory answers the rows; called once for each type of memory.
fn run<M: Memory>(rt: &impl Abort, memory: &mut M) {
    for Row(home, offset, operation, answer) in ROWS {
        assert_eq!(rt; perform(memory, home, offset, operation), answer);
    }
}

/// The memory, all words 0, has so many homes: its last is there, the next is not. All words stay 0.
fn border<M: Memory>(rt: &impl Abort, memory: &mut M, count: u64) {
    assert_eq!(rt; memory.count(), count);
    if count > 0 {
        assert_eq!(rt; memory.swap(count, DEPART, 1), Ok(0));
        assert_eq!(rt; memory.swap(count, DEPART, 0), Ok(1));
        assert_eq!(rt; memory.swap(count, 5, 1), NO_OFFSET);
    }
    assert_eq!(rt; memory.swap(count.wrapping_add(1), NEXT, 1), NO_HOME);
    assert_eq!(rt; memory.get(0, NEXT), NO_HOME);
}

#[test]
fn every_memory_answers_the_same(rt: HostRuntime) {
    let mut table = [0u64; 17];
    table[15] = 77;
    run(&rt, &mut WordMemory::new(&mut table));
    assert_eq!(rt; (table[0], table[13], table[14], table[15]), (7, 3, 2, 77));
    let mut window = [0u8; 129];
    window[120] = 77;
    run(&rt, &mut ByteMemory::new(&mut window));
    assert_eq!(rt;
        (window[7], window[111], window[119], window[120]),
        (7, 3, 2, 77)
    );
    let mut near = [0u64; 5];
    let mut far = [0u8; 80];
    run(
        &rt,
        &mut JoinedMemory::new(WordMemory::new(&mut near), ByteMemory::new(&mut far)),
    );
    assert_eq!(rt; (near[0], far[71], far[79]), (7, 3, 2));
}

#[test]
fn every_memory_ends_at_its_last_home(rt: HostRuntime) -> Result<(), Fail> {
    border(&rt, &mut SingleHome { words: [0; 5] }, 1);
    for (words, bytes, count) in SIZES {
        let mut table = vec![in rt.alloc(); 0u64; words]?;
        border(&rt, &mut WordMemory::new(table.as_mut_slice()), count);
        let mut window = vec![in rt.alloc(); 0u8; bytes]?;
        border(&rt, &mut ByteMemory::new(window.as_mut_slice()), count);
        let mut near = [0u64; 10];
        let mut joined = JoinedMemory::new(
            WordMemory::new(&mut near),
            ByteMemory::new(window.as_mut_slice()),
        );
        border(&rt, &mut joined, count.saturating_add(2).min(MAX_HOMES));
        assert!(rt; window.iter().all(|byte| *byte == 0));
    }
    Ok(())
}
