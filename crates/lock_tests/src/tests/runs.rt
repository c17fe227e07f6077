//! The same run over every memory: a lone writer comes in, two writers queue up behind it, a reader waits.

use crate::tests::given::{ASKED, ENTERED, IDLE, MOVED, WAITING, plan_a};
use lock::ask::{ask_to_read, ask_to_write};
use lock::layout::layout;
use lock::occupied::is_occupied;
use lock::step::step;
use memory::{
    ARRIVE, ByteMemory, JoinedMemory, Memory, NEXT, ReadMemory, STATUS, TAIL, WordMemory,
};
use places::answer::Answer;
use places::record::Record;
use places::status::{WAIT, WRITE_BIT};
use places::touch::next_touch;
use plan::plan::Plan;
use refusal::Refusal;
use std::process::Abort;
use std::test::Fail;

// A constant table names its calls by an enum: closures would have to be made for each memory that it is played in. The
// enum is its own, since `law` and `job` are not among these tests' crates.
#[derive(Clone, Copy)]
enum Call {
    Write,
    Read,
    Step,
}

/// A call, its rank, how often it is made, and what it answers each time.
#[derive(Clone, Copy)]
struct Turn(Call, u16, u16, Result<Answer, Refusal>);

/// Rank 1 before its last step.
const COMING: [Turn; 3] = [
    Turn(Call::Write, 1, 1, ASKED),
    Turn(Call::Step, 1, 16, MOVED),
    Turn(Call::Step, 5, 1, Err(Refusal::NotUnderWay)),
];

/// Rank 1 enters; ranks 2 and 3 wait in turn, and rank 4 waits to read.
const WAITERS: [Turn; 12] = [
    Turn(Call::Step, 1, 1, ENTERED),
    Turn(Call::Step, 1, 2, Err(Refusal::NotUnderWay)),
    Turn(Call::Read, 1, 1, Err(Refusal::NotIdle)),
    Turn(Call::Write, 2, 1, ASKED),
    Turn(Call::Step, 2, 4, MOVED),
    Turn(Call::Write, 3, 1, ASKED),
    Turn(Call::Step, 3, 4, MOVED),
    Turn(Call::Step, 2, 2, WAITING),
    Turn(Call::Step, 3, 2, WAITING),
    Turn(Call::Read, 4, 1, ASKED),
    Turn(Call::Step, 4, 2, MOVED),
    Turn(Call::Step, 4, 3, WAITING),
];

/// A rank, and what its next step touches then: operation, home, offset, numbers that were worked out beforehand.
const TOUCHES: [(u16, (u8, u64, u64)); 5] = [
    (1, (0, 0, 0)),
    (2, (1, 2, STATUS)),
    (3, (1, 3, STATUS)),
    (4, (1, 3, ARRIVE)),
    (5, (0, 0, 0)),
];

/// A home, an offset, and the word there.
const WORDS: [(u64, u64, u64); 10] = [
    (1, NEXT, 2),
    (1, STATUS, 0),
    (1, ARRIVE, WRITE_BIT),
    (2, NEXT, 3),
    (2, STATUS, WAIT),
    (3, STATUS, WAIT),
    (3, ARRIVE, WRITE_BIT),
    (5, ARRIVE, WRITE_BIT),
    (6, TAIL, 7),
    (7, TAIL, 3),
];

// The calls answer what the table says. Plan, memory and records side by side, as the calls take them.
fn play<M: Memory>(
    rt: &impl Abort,
    plan: &Plan,
    memory: &mut M,
    records: &mut [Record],
    turns: &[Turn],
) {
    for &Turn(call, rank, times, told) in turns {
        for _ in 0..times {
            let answer = match call {
                Call::Write => ask_to_write(plan, records, rank),
                Call::Read => ask_to_read(plan, records, rank),
                Call::Step => step(plan, memory, records, rank),
            };
            assert_eq!(rt; answer, told);
        }
    }
}

// The whole run in a memory of any words; called once for each type of memory.
fn run<M: Memory>(rt: &impl Abort, plan: &Plan, memory: &mut M) -> Result<(), Fail> {
    let mut records = [IDLE; 5];
    assert_eq!(rt; layout(plan, memory, &mut records), Ok(()));
    assert_eq!(rt; is_occupied(plan, &records), Ok(false));
    play(rt, plan, memory, &mut records, &COMING);
    assert_eq!(rt; is_occupied(plan, &records), Ok(false));
    play(rt, plan, memory, &mut records, &WAITERS);
    assert_eq!(rt; is_occupied(plan, &records), Ok(true));
    for (rank, told) in TOUCHES {
        let touch = next_touch(plan, &records, rank)?;
        assert_eq!(rt; (touch.operation, touch.home, touch.offset), told);
    }
    for (home, offset, word) in WORDS {
        assert_eq!(rt; memory.get(home, offset), Ok(word));
    }
    Ok(())
}

#[test]
fn every_memory_gives_the_same_run(rt: HostRuntime) -> Result<(), Fail> {
    let plan = plan_a(rt.alloc())?;
    run(&rt, &plan, &mut WordMemory::new(&mut [7u64; 41]))?;
    run(&rt, &plan, &mut ByteMemory::new(&mut [7u8; 321]))?;
    let mut near = [7u64; 11];
    let mut far = [7u8; 240];
    run(
        &rt,
        &plan,
        &mut JoinedMemory::new(WordMemory::new(&mut near), ByteMemory::new(&mut far)),
    )
}
