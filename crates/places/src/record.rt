//! A rank's place as the caller's table holds it: parsed into a place or found spoiled, and written back whole.

ghost use Rattle.std.specs.Prelude.{◌≡◌, ℕ, ◌≤◌, IfOk, length, nat_le, ok_or};
ghost use Rattle.refusal.specs.declared.Refusal.TheVariants.{Spoiled};
ghost use Rattle.plan.specs.Shapes.{within};
ghost use Rattle.plan.specs.Trees.{Tree, own_level, tree_of};
ghost use Rattle.places.specs.Records.{
  ReadsBack,
  counter_fits,
  fits,
  home_fits,
  named,
  parsed,
  place_at,
  recorded,
  row,
};

use crate::place::Place;
use plan::plan::Plan;
use refusal::Refusal;

/// The number of a place, and the fields that places use; a place's other fields are 0.
// The place is a number, since a caller's table has one fixed form, and may hold numbers that are no place's.
#[derive(Clone, Copy, PartialEq, Eq, Debug)]
pub struct Record {
    pub place: u8,
    pub level: u8,
    pub home: u64,
    pub number: u64,
    pub counter: u16,
}

impl Record {
    /// The record of an idle rank: zeros.
    pub const IDLE: Record = Record {
        place: 0,
        level: 0,
        home: 0,
        number: 0,
        counter: 0,
    };
}

/// The place that a record names, whatever its fields hold. A number that is no place's is refused by 7.
impl TryFrom<Record> for Place {
    type Error = Refusal;

    ghost try_from_gives = { λ r q. q ≡ ok_or (named r) Spoiled };

    fn try_from(record: Record) -> Result<Place, Refusal> {
        let Record {
            place,
            level,
            home,
            number,
            counter,
        } = record;
        let named = match place {
            0 => Place::Idle,
            1 => Place::W1 { level },
            2 => Place::W2 { level },
            3 => Place::W3 { level },
            4 => Place::W4 { level, home },
            5 => Place::W5 { level },
            6 => Place::W6 { level },
            7 => Place::W7 { counter },
            8 => Place::W8 { counter },
            9 => Place::W9 { counter, number },
            10 => Place::U1 { level },
            11 => Place::U2 { level, number },
            12 => Place::U3 {
                level,
                home,
                number,
            },
            13 => Place::U4,
            14 => Place::U5 { number },
            15 => Place::U6 { counter },
            16 => Place::U7 { counter, number },
            17 => Place::U8 { level },
            18 => Place::U9 { level, home },
            19 => Place::U10 { level },
            20 => Place::R1,
            21 => Place::R2,
            22 => Place::R3,
            23 => Place::R4,
            24 => Place::R5,
            25 => Place::R6 { number },
            26 => Place::R7,
            27 => Place::Writer,
            28 => Place::Reader,
            _ => return Err(Refusal::Spoiled),
        };
        Ok(named)
    }
}

// A level from `low` to the rank's own, which is looked up only where the level is not too low already.
fn level_is_in(plan: &Plan, rank: u16, low: u8, level: u8) -> bool
    ensures { result ≡ within low (own_level (tree_of plan.now) rank) level }
{
    low <= level && level <= plan.own_level(rank)
}

// A home of the lock.
fn home_is_in(plan: &Plan, home: u64) -> bool
    ensures { result ≡ home_fits (tree_of plan.now) home }
{
    (1..=plan.homes()).contains(&home)
}

// A counter of the lock.
fn counter_is_in(plan: &Plan, counter: u16) -> bool
    ensures { result ≡ counter_fits (tree_of plan.now) counter }
{
    counter < plan.counters()
}

// Each field that the place uses is in range.
fn fields_fit(plan: &Plan, rank: u16, place: Place) -> bool
    ensures { result ≡ fits (tree_of plan.now) rank place }
{
    match place {
        Place::W1 { level }
        | Place::W2 { level }
        | Place::W3 { level }
        | Place::W5 { level }
        | Place::W6 { level }
        | Place::U8 { level }
        | Place::U10 { level } => level_is_in(plan, rank, 1, level),
        Place::U1 { level } | Place::U2 { level, number: _ } => level_is_in(plan, rank, 2, level),
        Place::W4 { level, home }
        | Place::U3 {
            level,
            home,
            number: _,
        }
        | Place::U9 { level, home } => {
            level_is_in(plan, rank, 1, level) && home_is_in(plan, home)
        }
        Place::W7 { counter }
        | Place::W8 { counter }
        | Place::W9 { counter, number: _ }
        | Place::U6 { counter }
        | Place::U7 { counter, number: _ } => counter_is_in(plan, counter),
        Place::Idle
        | Place::U4
        | Place::U5 { number: _ }
        | Place::R1
        | Place::R2
        | Place::R3
        | Place::R4
        | Place::R5
        | Place::R6 { number: _ }
        | Place::R7
        | Place::Writer
        | Place::Reader => true,
    }
}

/// What the record of a rank says, or nothing if it is spoiled: an unknown place, or a used field out of range.
// No TryFrom: which fields are in range depends on the plan and the rank.
pub fn parse(plan: &Plan, rank: u16, r: &Record) -> Option<Place>
    ensures { result ≡ parsed (tree_of plan.now) rank r.now }
{
    let place = Place::try_from(*r).ok()?;
    fields_fit(plan, rank, place).then_some(place)
}

// A record of numbers, in the order of the fields: so each place is one line below, and with names it would be six.
fn numbers(place: u8, level: u8, home: u64, number: u64, counter: u16) -> Record
    ensures { result ≡ row place level home number counter }
{
    Record {
        place,
        level,
        home,
        number,
        counter,
    }
}

/// The record of a place, with 0 in the fields that it does not use.
impl From<Place> for Record {
    ghost from_gives = { λ q r. r ≡ recorded q };

    fn from(place: Place) -> Record {
        match place {
            Place::Idle => Record::IDLE,
            Place::W1 { level } => numbers(1, level, 0, 0, 0),
            Place::W2 { level } => numbers(2, level, 0, 0, 0),
            Place::W3 { level } => numbers(3, level, 0, 0, 0),
            Place::W4 { level, home } => numbers(4, level, home, 0, 0),
            Place::W5 { level } => numbers(5, level, 0, 0, 0),
            Place::W6 { level } => numbers(6, level, 0, 0, 0),
            Place::W7 { counter } => numbers(7, 0, 0, 0, counter),
            Place::W8 { counter } => numbers(8, 0, 0, 0, counter),
            Place::W9 { counter, number } => numbers(9, 0, 0, number, counter),
            Place::U1 { level } => numbers(10, level, 0, 0, 0),
            Place::U2 { level, number } => numbers(11, level, 0, number, 0),
            Place::U3 {
                level,
                home,
                number,
            } => numbers(12, level, home, number, 0),
            Place::U4 => numbers(13, 0, 0, 0, 0),
            Place::U5 { number } => numbers(14, 0, 0, number, 0),
            Place::U6 { counter } => numbers(15, 0, 0, 0, counter),
            Place::U7 { counter, number } => numbers(16, 0, 0, number, counter),
            Place::U8 { level } => numbers(17, level, 0, 0, 0),
            Place::U9 { level, home } => numbers(18, level, home, 0, 0),
            Place::U10 { level } => numbers(19, level, 0, 0, 0),
            Place::R1 => numbers(20, 0, 0, 0, 0),
            Place::R2 => numbers(21, 0, 0, 0, 0),
            Place::R3 => numbers(22, 0, 0, 0, 0),
            Place::R4 => numbers(23, 0, 0, 0, 0),
            Place::R5 => numbers(24, 0, 0, 0, 0),
            Place::R6 { number } => numbers(25, 0, 0, number, 0),
            Place::R7 => numbers(26, 0, 0, 0, 0),
            Place::Writer => numbers(27, 0, 0, 0, 0),
            Place::Reader => numbers(28, 0, 0, 0, 0),
        }
    }
}

/// The record of a place, with 0 in the fields that it does not use.
/// It is parsed as the same place again, for every rank at which its fields are in range.
// Beside `From`, since its contract says too that the record reads back.
pub fn record_of(place: Place) -> Record
    ensures value { result ≡ recorded place }
    ensures back { (t : Tree) (p : ℕ) → ReadsBack t p place }
{
    Record::from(place)
}

/// Whether there is a record for each rank of a plan.
pub fn has_records(plan: &Plan, records: &[Record]) -> bool
    ensures { result ≡ nat_le (tree_of plan.now).shape.ranks (length records.now) }
{
    plan.shape().ranks as usize <= records.len()
}

/// The place at which a rank stands, by its record. Too few records are refused by 5, an unknown rank by 6, and a
/// spoiled record by 7.
// Inlined, so that a refused call costs no more than its tests.
#[inline(always)]
pub fn place_of(plan: &Plan, records: &[Record], rank: u16) -> Result<Place, Refusal>
    ensures value { result ≡ place_at (tree_of plan.now) records.now rank }
    ensures inside { IfOk result (λ _. (1 ≤ rank) × (rank ≤ length records.now)) }
{
    if !has_records(plan, records) {
        return Err(Refusal::TooShort);
    }
    if !plan.has_rank(rank) {
        return Err(Refusal::UnknownRank);
    }
    parse(plan, rank, &records[rank as usize - 1]).ok_or(Refusal::Spoiled)
}
