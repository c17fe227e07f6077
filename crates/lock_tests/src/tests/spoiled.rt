//! Spoiled records of every kind, and fields that a place does not use.

use crate::tests::given::{IDLE, USES, Uses, all_refuse, highest, lowest, plan_a};
use lock::ask::ask_to_read;
use lock::step::step;
use memory::WordMemory;
use places::record::Record;
use places::touch::next_touch;
use plan::plan::Plan;
use refusal::Refusal;
use std::process::Abort;
use std::test::Fail;

// Every call refuses the record of rank 2 by 7, and nothing changes.
fn is_refused(rt: &impl Abort, plan: &Plan, spoiled: Record) {
    let mut table = [7u64; 40];
    let before = [IDLE, spoiled, IDLE, IDLE, IDLE];
    let mut records = before;
    all_refuse(
        rt,
        plan,
        &mut WordMemory::new(&mut table),
        &mut records,
        &[2],
        Refusal::Spoiled,
    );
    assert_eq!(rt; records, before);
    assert_eq!(rt; table, [7u64; 40]);
}

#[test]
fn spoiled_records_are_refused(rt: HostRuntime) -> Result<(), Fail> {
    let plan = plan_a(rt.alloc())?;
    for place in 29..=255u8 {
        is_refused(&rt, &plan, Record { place, ..IDLE });
    }
    for uses in USES {
        let low = lowest(uses, IDLE);
        let high = highest(uses, IDLE);
        let Uses(_, lowest_level, home, _, counter) = uses;
        if lowest_level > 0 {
            is_refused(
                &rt,
                &plan,
                Record {
                    level: low.level.saturating_sub(1),
                    ..low
                },
            );
            is_refused(&rt, &plan, Record { level: 3, ..high });
        }
        if home {
            is_refused(&rt, &plan, Record { home: 0, ..low });
            is_refused(&rt, &plan, Record { home: 9, ..high });
        }
        if counter {
            is_refused(&rt, &plan, Record { counter: 3, ..high });
        }
    }
    Ok(())
}

// What stands in the fields that a place does not use.
const NOISE: Record = Record {
    place: 255,
    level: 255,
    home: u64::MAX,
    number: 77,
    counter: u16::MAX,
};

// The two records mean the same to every call.
fn are_alike(rt: &impl Abort, plan: &Plan, clean: Record, noisy: Record) -> Result<(), Fail> {
    let mut here = [clean; 5];
    let mut there = [noisy; 5];
    let touch = next_touch(plan, &here, 2)?;
    assert_eq!(rt; next_touch(plan, &there, 2), Ok(touch));
    let mut words = [0u64; 40];
    let mut others = [0u64; 40];
    let answer = step(plan, &mut WordMemory::new(&mut words), &mut here, 2);
    let other = step(plan, &mut WordMemory::new(&mut others), &mut there, 2);
    assert_eq!(rt; other, answer);
    if answer.is_ok() {
        assert_eq!(rt; there[1], here[1]);
    }
    assert_eq!(rt; others, words);
    let asked = ask_to_read(plan, &mut here, 3);
    assert_eq!(rt; ask_to_read(plan, &mut there, 3), asked);
    if asked.is_ok() {
        assert_eq!(rt; there[2], here[2]);
    }
    Ok(())
}

#[test]
fn unused_fields_are_not_read(rt: HostRuntime) -> Result<(), Fail> {
    let plan = plan_a(rt.alloc())?;
    for uses in USES {
        are_alike(&rt, &plan, lowest(uses, IDLE), lowest(uses, NOISE))?;
        are_alike(&rt, &plan, highest(uses, IDLE), highest(uses, NOISE))?;
    }
    Ok(())
}
