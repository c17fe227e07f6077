//! The table of worked cases, run against the code.

use crate::cases::{Case, table};
use crate::tests::runs::{
    counter_after_readers, hands_on, reader_returns, tail_after_writer, writer_enters, writer_free,
};
use places::place::Place;
use plan::plan::Plan;
use plan::questions;
use plan::shape::Shape;
use refusal::Refusal;
use std::alloc::{AllocError, Global};
use std::process::Abort;
use std::test::Fail;

// Plan A with another number of ranks, another parent of element 2 or another threshold of level 2; written out here, as
// in the other files.
fn changed(
    heap: Global,
    ranks: u16,
    parent: u16,
    threshold: u16,
) -> Result<Result<Plan, Refusal>, AllocError> {
    let shape = Shape {
        ranks,
        elements: 3,
        levels: 2,
        spacing: 2,
        reader_threshold: 2,
        writer_threshold: 2,
        level2_threshold: threshold,
        level3_threshold: 0,
        level4_threshold: 0,
    };
    let parents = [parent, 1].to_vec(heap)?;
    let mut rank_elements = [2, 2, 2].to_vec(heap)?;
    rank_elements.resize(ranks as usize, 3)?;
    Ok(Plan::new(shape, parents, rank_elements))
}

// The number of the refusal, if the plan is refused.
fn refused(made: Result<Plan, Refusal>) -> Option<u64> {
    made.err()?.number().map(u64::from)
}

// What the code answers, beside what the table says, where 0 stands for no refusal and no step.
fn answer(rt: &impl Abort, heap: Global, plan: &Plan, case: Case) -> Result<(u64, u64), Fail> {
    let both = match case {
        Case::CounterHome(rank, home) => (questions::counter_home_of_rank(plan, rank)?, home),
        Case::Node(rank, level, home) => (questions::node_of_rank(plan, rank, level)?, home),
        Case::Queue(rank, level, home) => (questions::queue_of_rank(plan, rank, level)?, home),
        Case::Ranks(ranks, number) => (
            refused(changed(heap, ranks, 1, 1)?).unwrap_or(0),
            number as u64,
        ),
        Case::Level2Threshold(threshold, number) => (
            refused(changed(heap, 5, 1, threshold)?).unwrap_or(0),
            number as u64,
        ),
        Case::Parent(parent, number) => (
            refused(changed(heap, 5, parent, 1)?).unwrap_or(0),
            number as u64,
        ),
        Case::WriterEnters(rank, step) => (writer_enters(plan, rank).unwrap_or(0), step),
        Case::WriterFree(rank, step) => (writer_free(plan, rank).unwrap_or(0), step),
        Case::TailAfterWriter(rank, home, tail) => (tail_after_writer(plan, rank, home)?, tail),
        Case::ReaderReturns(step) => (reader_returns(plan).unwrap_or(0), step),
        Case::CounterAfterReaders(counter, arrive, depart) => {
            let (arrived, departed) = counter_after_readers(plan, counter)?;
            assert_eq!(rt; departed, depart);
            (arrived, arrive)
        }
        Case::HandsOnAtLevel2(number, hands) => (
            hands_on(rt, plan, Place::U2 { level: 2, number })? as u64,
            hands,
        ),
        Case::HandsOnAtLevel1(number, hands) => (
            hands_on(rt, plan, Place::U5 { number })? as u64,
            hands,
        ),
    };
    Ok(both)
}

#[test]
fn the_table_holds_of_the_code(rt: HostRuntime) -> Result<(), Fail> {
    let heap = rt.alloc();
    let plan = changed(heap, 5, 1, 1)??;
    for case in table() {
        let (found, told) = answer(&rt, heap, &plan, case)?;
        assert_eq!(rt; found, told);
    }
    Ok(())
}
