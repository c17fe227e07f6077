//! Tables and memories that are too short, and a layout in ones that are longer than needed.

use crate::tests::given::{IDLE, SPOILED, all_refuse, plan_a};
use lock::ask::ask_to_write;
use lock::layout::layout;
use lock::occupied::is_occupied;
use lock::step::step;
use memory::WordMemory;
use places::answer::Answer;
use places::record::Record;
use places::touch::next_touch;
use refusal::Refusal;
use std::test::Fail;

const TOO_SHORT: Result<Answer, Refusal> = Err(Refusal::TooShort);

// A spoiled record.
const ODD: Record = Record {
    place: 99,
    level: 1,
    home: 2,
    number: 3,
    counter: 4,
};

#[test]
fn a_record_too_few(rt: HostRuntime) -> Result<(), Fail> {
    let plan = plan_a(rt.alloc())?;
    let mut records = [ODD; 4];
    let mut table = [7u64; 40];
    let mut memory = WordMemory::new(&mut table);
    assert_eq!(rt;
        layout(&plan, &mut memory, &mut records),
        Err(Refusal::TooShort)
    );
    assert_eq!(rt; is_occupied(&plan, &records), Err(Refusal::TooShort));
    // 5 comes before 6 and 7
    let ranks = [0, 1, 5, 6];
    all_refuse(
        &rt,
        &plan,
        &mut memory,
        &mut records,
        &ranks,
        Refusal::TooShort,
    );
    assert_eq!(rt; records, [ODD; 4]);
    assert_eq!(rt; table, [7u64; 40]);
    Ok(())
}

#[test]
fn a_word_too_few(rt: HostRuntime) -> Result<(), Fail> {
    let plan = plan_a(rt.alloc())?;
    let mut records = [ODD; 5];
    let mut table = [7u64; 39];
    let mut memory = WordMemory::new(&mut table);
    assert_eq!(rt;
        layout(&plan, &mut memory, &mut records),
        Err(Refusal::TooShort)
    );
    assert_eq!(rt; step(&plan, &mut memory, &mut records, 0), TOO_SHORT);
    assert_eq!(rt; step(&plan, &mut memory, &mut records, 1), TOO_SHORT);
    // these take no memory
    assert_eq!(rt; ask_to_write(&plan, &mut records, 1), SPOILED);
    assert_eq!(rt; next_touch(&plan, &records, 1), Err(Refusal::Spoiled));
    assert_eq!(rt; is_occupied(&plan, &records), Ok(false));
    assert_eq!(rt; records, [ODD; 5]);
    assert_eq!(rt; table, [7u64; 39]);
    Ok(())
}

#[test]
fn a_layout_clears_the_lock_and_nothing_beyond(rt: HostRuntime) -> Result<(), Fail> {
    let plan = plan_a(rt.alloc())?;
    let reader = Record { place: 28, ..IDLE };
    let mut records = [ODD, reader, ODD, ODD, ODD, reader, ODD];
    let mut table = [7u64; 47];
    assert_eq!(rt; is_occupied(&plan, &records), Ok(true));
    assert_eq!(rt;
        layout(&plan, &mut WordMemory::new(&mut table), &mut records),
        Ok(())
    );
    assert_eq!(rt; records, [IDLE, IDLE, IDLE, IDLE, IDLE, reader, ODD]);
    // rank 6 is none of the plan's
    assert_eq!(rt; is_occupied(&plan, &records), Ok(false));
    for (at, word) in table.iter().enumerate() {
        assert_eq!(rt; *word, if at < 40 { 0 } else { 7 });
    }
    Ok(())
}
