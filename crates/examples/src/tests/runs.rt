//! Runs of plan A that the worked cases speak of, over a memory of eight homes.

use job::run::run_call;
use law::call::Call;
use lock::step::step;
use memory::{ARRIVE, DEPART, ReadMemory, TAIL, WordMemory};
use places::answer::Answer;
use places::place::Place;
use places::record::Record;
use plan::plan::Plan;
use refusal::Refusal;
use std::process::Abort;
use std::test::Fail;

// Plan, words and records are parameters and not fields of a struct, since a call with two fields lent gets no proof.

// Which of 20 steps of a rank is the first with an answer.
fn first_step(
    plan: &Plan,
    words: &mut [u64],
    records: &mut [Record],
    rank: u16,
    wanted: Answer,
) -> Option<u64> {
    let mut memory = WordMemory::new(words);
    for n in 1..=20 {
        if step(plan, &mut memory, records, rank) == Ok(wanted) {
            return Some(n);
        }
    }
    None
}

// One call, whatever it answers.
fn call(plan: &Plan, words: &mut [u64], records: &mut [Record], made: Call) {
    let mut memory = WordMemory::new(words);
    let _ = run_call(plan, &mut memory, records, made);
}

// A rank, alone, asks to write and steps until it is in.
fn write(plan: &Plan, words: &mut [u64], records: &mut [Record], rank: u16) -> Option<u64> {
    call(plan, words, records, Call::AskWrite { rank });
    first_step(plan, words, records, rank, Answer::Entered)
}

// And then leaves and steps until it is idle.
fn write_and_leave(
    plan: &Plan,
    words: &mut [u64],
    records: &mut [Record],
    rank: u16,
) -> Option<u64> {
    let _ = write(plan, words, records, rank);
    call(plan, words, records, Call::Leave { rank });
    first_step(plan, words, records, rank, Answer::Free)
}

// Ranks 1 and 2 read, rank 1 goes out, asks again and steps until it is in.
fn read_again(plan: &Plan, words: &mut [u64], records: &mut [Record]) -> Option<u64> {
    for made in [
        Call::AskRead { rank: 1 },
        Call::Step { rank: 1 },
        Call::AskRead { rank: 2 },
        Call::Step { rank: 2 },
        Call::Leave { rank: 1 },
        Call::Step { rank: 1 },
        Call::AskRead { rank: 1 },
    ] {
        call(plan, words, records, made);
    }
    first_step(plan, words, records, 1, Answer::Entered)
}

/// The step at which a lone writer enters. A name for each kind of row of the table, here and below.
pub(crate) fn writer_enters(plan: &Plan, rank: u16) -> Option<u64> {
    write(plan, &mut [0; 40], &mut [Record::IDLE; 5], rank)
}

/// The step at which it is free again after its leave.
pub(crate) fn writer_free(plan: &Plan, rank: u16) -> Option<u64> {
    write_and_leave(plan, &mut [0; 40], &mut [Record::IDLE; 5], rank)
}

/// A home's tail after that.
pub(crate) fn tail_after_writer(plan: &Plan, rank: u16, home: u64) -> Result<u64, Fail> {
    let mut words = [0; 40];
    let _ = write_and_leave(plan, &mut words, &mut [Record::IDLE; 5], rank);
    Ok(WordMemory::new(&mut words).get(home, TAIL)?)
}

/// The step at which a returning reader enters.
pub(crate) fn reader_returns(plan: &Plan) -> Option<u64> {
    read_again(plan, &mut [0; 40], &mut [Record::IDLE; 5])
}

/// ARRIVE and DEPART of a counter after that.
pub(crate) fn counter_after_readers(plan: &Plan, counter: u16) -> Result<(u64, u64), Fail> {
    let mut words = [0; 40];
    let _ = read_again(plan, &mut words, &mut [Record::IDLE; 5]);
    let home = plan.counter_home(counter);
    let memory = WordMemory::new(&mut words);
    Ok((memory.get(home, ARRIVE)?, memory.get(home, DEPART)?))
}

/// Whether rank 1 hands on from a place; its nodes at both levels have a successor.
pub(crate) fn hands_on(rt: &impl Abort, plan: &Plan, place: Place) -> Result<bool, Fail> {
    let mut words = [0; 40];
    words[0] = 2;
    words[30] = 8;
    let mut records = [Record::IDLE; 5];
    records[0] = Record::from(place);
    let mut memory = WordMemory::new(&mut words);
    assert_eq!(rt; step(plan, &mut memory, &mut records, 1)?, Answer::Moved);
    Ok(matches!(Place::try_from(records[0]), Ok(Place::U3 { .. })))
}
