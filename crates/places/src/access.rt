//! The first half of the table: the one word that each place touches, and how.

ghost use Rattle.std.specs.Prelude.{◌≡◌};
ghost use Rattle.memory.specs.declared.operations.Operation.TheVariants.{Cas};
ghost use Rattle.plan.specs.Trees.{tree_of};
ghost use Rattle.places.specs.Table.{access, access_of};
ghost use Rattle.places.specs.Words.{minus};

use crate::place::Place;
use crate::status::{MODE, PARENT, WAIT, WRITE_BIT};
use memory::{ARRIVE, DEPART, NEXT, Operation, STATUS, TAIL};
use plan::plan::Plan;

/// One operation on one word.
#[derive(Clone, Copy)]
pub struct Access {
    pub home: u64,
    pub offset: u64,
    pub operation: Operation,
}

// An access, in the order of the fields.
fn on(home: u64, offset: u64, operation: Operation) -> Access
    ensures { result ≡ access home offset operation }
{
    Access {
        home,
        offset,
        operation,
    }
}

// The word whose addition takes `n` away.
fn negated(n: u64) -> u64
    ensures { result ≡ minus n }
{
    n.wrapping_neg()
}

// Compares a tail with the rank's node, and clears it.
fn clear_from(node: u64) -> Operation
    ensures { result ≡ Cas node 0 }
{
    Operation::Cas {
        expected: node,
        new: 0,
    }
}

/// The access of a rank at a place; an idle rank and one that is in have none.
pub fn next_access(plan: &Plan, rank: u16, place: Place) -> Option<Access>
    ensures { result ≡ access_of (tree_of plan.now) rank place }
{
    let access = match place {
        Place::Idle | Place::Writer | Place::Reader => return None,
        // the node forgets its successor
        Place::W1 { level } => on(plan.node_home(rank, level), NEXT, Operation::Put(0)),
        // the node says that it waits
        Place::W2 { level } => on(plan.node_home(rank, level), STATUS, Operation::Put(WAIT)),
        // the node is last in the queue
        Place::W3 { level } => {
            let node = plan.node_home(rank, level);
            on(plan.queue_home(rank, level), TAIL, Operation::Swap(node))
        }
        // the predecessor knows its successor
        Place::W4 { level, home } => on(home, NEXT, Operation::Put(plan.node_home(rank, level))),
        // looks whether the predecessor has handed over
        Place::W5 { level } => on(plan.node_home(rank, level), STATUS, Operation::Get),
        // the node holds, with no hand-over counted
        Place::W6 { level } => on(plan.node_home(rank, level), STATUS, Operation::Put(0)),
        // the counter stops readers
        Place::W7 { counter } => on(
            plan.counter_home(counter),
            ARRIVE,
            Operation::Add(WRITE_BIT),
        ),
        // looks how many readers came
        Place::W8 { counter } => on(plan.counter_home(counter), ARRIVE, Operation::Get),
        // looks how many of them went
        Place::W9 { counter, number: _ } => on(plan.counter_home(counter), DEPART, Operation::Get),
        // looks how often this level was handed on
        Place::U1 { level } => on(plan.node_home(rank, level), STATUS, Operation::Get),
        // looks for a successor
        Place::U2 { level, number: _ } => on(plan.node_home(rank, level), NEXT, Operation::Get),
        // the successor is in, with all levels above
        Place::U3 {
            level: _,
            home,
            number,
        } => on(home, STATUS, Operation::Put(number)),
        // looks how many writers came in a row
        Place::U4 => on(plan.node_home(rank, 1), STATUS, Operation::Get),
        // looks for a successor at level 1
        Place::U5 { number: _ } => on(plan.node_home(rank, 1), NEXT, Operation::Get),
        // the counter forgets who went
        Place::U6 { counter } => on(plan.counter_home(counter), DEPART, Operation::Swap(0)),
        // the counter lets readers in
        Place::U7 { counter, number } => {
            let gone = negated(WRITE_BIT.wrapping_add(number));
            on(plan.counter_home(counter), ARRIVE, Operation::Add(gone))
        }
        // looks for a successor on the way down
        Place::U8 { level } => on(plan.node_home(rank, level), NEXT, Operation::Get),
        // the successor holds this level, and must go on above it
        Place::U9 { level, home } => {
            let told = if level == 1 { MODE } else { PARENT };
            on(home, STATUS, Operation::Put(told))
        }
        // the queue is empty, if no one came behind
        Place::U10 { level } => {
            on(
                plan.queue_home(rank, level),
                TAIL,
                clear_from(plan.node_home(rank, level)),
            )
        }
        // a reader came
        Place::R1 => on(plan.own_counter_home(rank), ARRIVE, Operation::Add(1)),
        // it takes its coming back
        Place::R2 => on(
            plan.own_counter_home(rank),
            ARRIVE,
            Operation::Add(negated(1)),
        ),
        // looks whether readers may come
        Place::R3 => on(plan.own_counter_home(rank), ARRIVE, Operation::Get),
        // looks whether a writer holds or wants level 1
        Place::R4 => on(plan.element_home(1), TAIL, Operation::Get),
        // the counter forgets who went
        Place::R5 => on(plan.own_counter_home(rank), DEPART, Operation::Swap(0)),
        // and as many who came; the write bit stays
        Place::R6 { number } => on(
            plan.own_counter_home(rank),
            ARRIVE,
            Operation::Add(negated(number)),
        ),
        // a reader went
        Place::R7 => on(plan.own_counter_home(rank), DEPART, Operation::Add(1)),
    };
    Some(access)
}
