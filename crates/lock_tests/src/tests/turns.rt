//! Calls out of turn, unknown ranks, and which refusal comes first. Places by number, as the table of uses has them.

use crate::tests::given::{ASKED, IDLE, USES, all_refuse, highest, plan_a};
use lock::ask::{ask_to_read, ask_to_write};
use lock::step::step;
use memory::WordMemory;
use places::answer::Answer;
use places::record::Record;
use places::touch::{Touch, next_touch};
use refusal::Refusal;
use std::test::Fail;

const NOT_IDLE: Result<Answer, Refusal> = Err(Refusal::NotIdle);

const NOT_UNDER_WAY: Result<Answer, Refusal> = Err(Refusal::NotUnderWay);

const NOTHING: Touch = Touch {
    operation: 0,
    home: 0,
    offset: 0,
};

#[test]
fn calls_out_of_turn(rt: HostRuntime) -> Result<(), Fail> {
    let plan = plan_a(rt.alloc())?;
    for uses in USES {
        let place = uses.0;
        let before = [highest(uses, IDLE); 5];
        let mut records = before;
        let mut table = [0u64; 40];
        let stepped = step(&plan, &mut WordMemory::new(&mut table), &mut records, 2);
        let rests = matches!(place, 0 | 27 | 28);
        assert_eq!(rt; next_touch(&plan, &before, 2)? == NOTHING, rests);
        assert_eq!(rt; stepped == NOT_UNDER_WAY, rests);
        assert_eq!(rt; stepped.is_err(), rests);
        if rests {
            assert_eq!(rt; records, before);
        }
        let asks = if place == 0 { ASKED } else { NOT_IDLE };
        records = before;
        assert_eq!(rt; ask_to_write(&plan, &mut records, 4), asks);
        assert_eq!(rt; records == before, place != 0);
        records = before;
        assert_eq!(rt; ask_to_read(&plan, &mut records, 4), asks);
        assert_eq!(rt; records == before, place != 0);
    }
    Ok(())
}

#[test]
fn unknown_ranks_and_the_order_of_refusals(rt: HostRuntime) -> Result<(), Fail> {
    let plan = plan_a(rt.alloc())?;
    let spoiled = Record { place: 1, ..IDLE };
    let before = [spoiled; 6];
    let mut records = before;
    let mut table = [7u64; 40];
    let mut memory = WordMemory::new(&mut table);
    // 6 comes before 7
    let ranks = [0, 6, 65535];
    all_refuse(
        &rt,
        &plan,
        &mut memory,
        &mut records,
        &ranks,
        Refusal::UnknownRank,
    );
    // 7 comes before 8 and 9
    all_refuse(
        &rt,
        &plan,
        &mut memory,
        &mut records,
        &[5],
        Refusal::Spoiled,
    );
    assert_eq!(rt; records, before);
    assert_eq!(rt; table, [7u64; 40]);
    Ok(())
}
