//! The second half of the table: what follows at each place from the word that its access gave.

ghost use Rattle.std.specs.Prelude.{◌≡◌, ◌-◌, ◌<◌, T, ◌==◌, nat_lt};
ghost use Rattle.plan.specs.Trees.{element_at, node_home, own_level, threshold, tree_of};
ghost use Rattle.places.specs.Table.{goes, hands_on, level_done, more_counters, next_of, told};

use crate::answer::Answer;
use crate::place::Place;
use crate::status::{MODE, MOST_HAND_OVERS, PARENT, WAIT, WRITE_BIT};
use plan::plan::Plan;
use refusal::Refusal;

/// The place after a step, and what the step answers.
#[derive(Clone, Copy)]
pub struct Next {
    pub place: Place,
    pub answer: Answer,
}

// A place and an answer.
fn go(place: Place, answer: Answer) -> Result<Next, Refusal>
    ensures { result ≡ goes place answer }
{
    Ok(Next { place, answer })
}

// The rank is done with a level on its way down.
fn done(plan: &Plan, rank: u16, level: u8) -> Result<Next, Refusal>
    ensures { result ≡ level_done (tree_of plan.now) rank level }
{
    if plan.is_inner(rank, level) {
        go(Place::U8 { level: level + 1 }, Answer::Moved)
    } else {
        go(Place::Idle, Answer::Free)
    }
}

// There is a counter behind this one.
fn has_next(plan: &Plan, counter: u16) -> bool
    ensures value { result ≡ more_counters (tree_of plan.now) counter }
    ensures bound { T result → counter < 65535 }
{
    counter as u32 + 1 < plan.counters() as u32
}

// The counter has not come to the readers' threshold.
fn has_room_for_reader(plan: &Plan, arrived: u64) -> bool
    ensures { result ≡ nat_lt arrived (tree_of plan.now).shape.reader_threshold }
{
    arrived < plan.shape().reader_threshold as u64
}

// The tail named the rank's own node.
fn is_own_node(plan: &Plan, rank: u16, level: u8, word: u64) -> bool
    ensures { result ≡ (word == node_home (tree_of plan.now) rank level) }
{
    word == plan.node_home(rank, level)
}

// There is a successor, and it was not handed on so often as the limit says.
fn hands_on(successor: u64, count: u64, limit: u16) -> bool
    ensures value { result ≡ hands_on successor count limit }
    ensures bound { T result → count < 65535 }
{
    successor != 0 && count < limit as u64
}

// What a waiting writer does at a status.
fn told_by(level: u8, status: u64) -> Result<Next, Refusal>
    ensures { result ≡ told level status }
{
    match status {
        WAIT => go(Place::W5 { level }, Answer::Waiting),
        PARENT if level >= 2 => go(Place::W6 { level }, Answer::Moved),
        MODE if level == 1 => go(Place::W6 { level }, Answer::Moved),
        0..=MOST_HAND_OVERS => go(Place::Writer, Answer::Entered),
        _ => Err(Refusal::Spoiled),
    }
}

/// What follows for a rank at a place, when its access gave the word `old`.
/// An idle rank and one that is in are refused by 9; a waiting writer refuses a status that no one writes by 7.
pub fn follow(plan: &Plan, rank: u16, place: Place, old: u64) -> Result<Next, Refusal>
    ensures { result ≡ next_of (tree_of plan.now) rank place old }
{
    let next = match place {
        Place::Idle | Place::Writer | Place::Reader => return Err(Refusal::NotUnderWay),
        Place::W1 { level } => Place::W2 { level },
        Place::W2 { level } => Place::W3 { level },
        // no predecessor: holds at once
        Place::W3 { level } => {
            if old == 0 {
                Place::W6 { level }
            } else {
                Place::W4 { level, home: old }
            }
        }
        Place::W4 { level, home: _ } => Place::W5 { level },
        // waits, holds this level, or is in
        Place::W5 { level } => return told_by(level, old),
        // on to the parent's queue, or to the counters
        Place::W6 { level } => {
            if level >= 2 {
                Place::W1 { level: level - 1 }
            } else {
                Place::W7 { counter: 0 }
            }
        }
        Place::W7 { counter } => {
            if has_next(plan, counter) {
                Place::W7 {
                    counter: counter + 1,
                }
            } else {
                Place::W8 { counter: 0 }
            }
        }
        Place::W8 { counter } => Place::W9 {
            counter,
            number: old,
        },
        // all who came have gone: on to the next counter, or in
        Place::W9 { counter, number } => {
            if number != WRITE_BIT.wrapping_add(old) {
                return go(Place::W8 { counter }, Answer::Waiting);
            }
            if !has_next(plan, counter) {
                return go(Place::Writer, Answer::Entered);
            }
            Place::W8 {
                counter: counter + 1,
            }
        }
        Place::U1 { level } => Place::U2 { level, number: old },
        // hands on within the element, or goes up; only where someone waits is the threshold looked up
        Place::U2 { level, number } => {
            if old != 0 && hands_on(old, number, plan.threshold(plan.element_at(rank, level))) {
                Place::U3 {
                    level,
                    home: old,
                    number: number + 1,
                }
            } else if level <= 2 {
                Place::U4
            } else {
                Place::U1 { level: level - 1 }
            }
        }
        Place::U3 {
            level,
            home: _,
            number: _,
        } => return done(plan, rank, level),
        Place::U4 => Place::U5 { number: old },
        // hands on at level 1, or lets readers in
        Place::U5 { number } => {
            if hands_on(old, number, plan.shape().writer_threshold.saturating_sub(1)) {
                Place::U3 {
                    level: 1,
                    home: old,
                    number: number + 1,
                }
            } else {
                Place::U6 { counter: 0 }
            }
        }
        Place::U6 { counter } => Place::U7 {
            counter,
            number: old,
        },
        Place::U7 { counter, number: _ } => {
            if has_next(plan, counter) {
                Place::U6 {
                    counter: counter + 1,
                }
            } else {
                Place::U8 { level: 1 }
            }
        }
        // tells its successor, or empties the queue
        Place::U8 { level } => {
            if old == 0 {
                Place::U10 { level }
            } else {
                Place::U9 { level, home: old }
            }
        }
        Place::U9 { level, home: _ } => return done(plan, rank, level),
        // someone came behind: its link is on the way
        Place::U10 { level } => {
            if is_own_node(plan, rank, level, old) {
                return done(plan, rank, level);
            }
            return go(Place::U8 { level }, Answer::Waiting);
        }
        // in, or one too many
        Place::R1 => {
            if has_room_for_reader(plan, old) {
                return go(Place::Reader, Answer::Entered);
            }
            Place::R2
        }
        Place::R2 => Place::R3,
        // again, waits for a writer, or clears the counter
        Place::R3 => {
            if has_room_for_reader(plan, old) {
                Place::R1
            } else if old >= WRITE_BIT {
                return go(Place::R3, Answer::Waiting);
            } else {
                Place::R4
            }
        }
        // a writer comes first
        Place::R4 => {
            if old != 0 {
                return go(Place::R3, Answer::Waiting);
            }
            Place::R5
        }
        Place::R5 => Place::R6 { number: old },
        Place::R6 { number: _ } => Place::R3,
        Place::R7 => return go(Place::Idle, Answer::Free),
    };
    Ok(Next {
        place: next,
        answer: Answer::Moved,
    })
}
