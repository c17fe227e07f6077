//! Orders with a single fault: each is refused by its number at the right offset.

use order::read::read_plan;
use order::write::write_plan;
use std::alloc::Global;
use std::test::Fail;

// Plan A as an order, to be read beside the faults: H at 0, E at 20 and 23, K at 26, 29, .., 38, G at 41.
const PLAN_A: [u8; 42] =
    *b"H\x00\x05\x00\x03\x02\x00\x02\x00\x00\x00\x02\x00\x02\x00\x01\x00\x00\x00\x00\
E\x00\x01E\x00\x01K\x00\x02K\x00\x02K\x00\x02K\x00\x03K\x00\x03G";

// A place in plan A and the byte put there, then the number of the refusal and its offset.
#[derive(Clone, Copy)]
struct Changed(usize, u8, u8, usize);

const CHANGED: [Changed; 30] = [
    // letters that are unknown or not due
    Changed(0, b'X', 14, 0),
    Changed(0, b'G', 14, 0),
    Changed(20, b'e', 14, 20),
    Changed(20, b'K', 14, 20),
    Changed(20, b'W', 14, 20),
    Changed(26, b'E', 14, 26),
    Changed(38, b'G', 14, 38),
    Changed(41, b'x', 14, 41),
    // a command that is not due and cut besides
    Changed(41, b'K', 13, 41),
    Changed(41, b'S', 13, 41),
    Changed(26, b'H', 13, 26),
    // other numbers of ranks and elements move what is due
    Changed(2, 6, 14, 41),
    Changed(2, 4, 14, 38),
    Changed(4, 0, 14, 20),
    // numbers out of limits, reported at G
    Changed(5, 0, 1, 41),
    Changed(5, 5, 1, 41),
    Changed(7, 0, 1, 41),
    Changed(7, 6, 1, 41),
    Changed(11, 0, 2, 41),
    Changed(8, 1, 2, 41),
    Changed(13, 0, 2, 41),
    Changed(15, 0, 2, 41),
    Changed(17, 1, 2, 41),
    Changed(5, 3, 2, 41),
    Changed(22, 0, 3, 41),
    Changed(22, 2, 3, 41),
    Changed(25, 2, 3, 41),
    Changed(28, 0, 4, 41),
    Changed(28, 1, 4, 41),
    Changed(28, 4, 4, 41),
];

// The number and the offset of the fault, or 0 and the offset behind G: numbers, as in the tables.
fn outcome(heap: Global, order: &[u8]) -> (u8, usize) {
    match read_plan(heap, order) {
        Ok(read) => (0, read.end),
        Err(fault) => (fault.refusal.number().unwrap_or(0), fault.offset),
    }
}

#[test]
fn plan_a_is_read_and_written_back(rt: HostRuntime) -> Result<(), Fail> {
    let heap = rt.alloc();
    let Ok(read) = read_plan(heap, &PLAN_A) else {
        return Err(Fail::new("plan A was refused"));
    };
    assert_eq!(rt; read.end, 42);
    let mut out = [7u8; 43];
    assert_eq!(rt; write_plan(&read.plan, &mut out).ok(), Some(42));
    assert!(rt; out.starts_with(&PLAN_A));
    assert_eq!(rt; out[42], 7);
    let mut short = [7u8; 41];
    assert!(rt; write_plan(&read.plan, &mut short).is_err());
    assert!(rt; short == [7; 41]);
    Ok(())
}

#[test]
fn single_faults(rt: HostRuntime) {
    let heap = rt.alloc();
    for Changed(at, byte, number, offset) in CHANGED {
        let mut order = PLAN_A;
        assert!(rt; at < 42);
        order[at] = byte;
        assert_eq!(rt; outcome(heap, &order), (number, offset));
    }
}

#[test]
fn every_cut(rt: HostRuntime) {
    let heap = rt.alloc();
    for length in 0..42usize {
        let offset = if length < 20 {
            0
        } else {
            20 + (length - 20) / 3 * 3
        };
        assert_eq!(rt; outcome(heap, &PLAN_A[..length]), (13, offset));
    }
}

#[test]
fn the_longest_order(rt: HostRuntime) -> Result<(), Fail> {
    let heap = rt.alloc();
    let mut order = PLAN_A.to_vec(heap)?;
    order.resize(65535, b'?')?;
    assert_eq!(rt; outcome(heap, order.as_slice()), (0, 42));
    order.push(b'?')?;
    assert_eq!(rt; outcome(heap, order.as_slice()), (16, 65535));
    Ok(())
}
