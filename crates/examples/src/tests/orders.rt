//! Whole orders and the lines of their runs.

use std::test::Fail;
use transcript::program::transcribe;

// Plan A, then readers 4 and 5, writers 1 and 2 that queue, a hand-over between them, and reader 3; written out here, to
// be read beside its lines.
static LARGER: [u8; 228] =
    *b"H\x00\x05\x00\x03\x02\x00\x02\x00\x00\x00\x02\x00\x02\x00\x01\x00\x00\x00\x00\
E\x00\x01E\x00\x01K\x00\x02K\x00\x02K\x00\x02K\x00\x03K\x00\x03G\
R\x00\x04S\x00\x04R\x00\x05S\x00\x05W\x00\x01S\x00\x01S\x00\x01S\x00\x01\
S\x00\x01S\x00\x01S\x00\x01S\x00\x01S\x00\x01S\x00\x01S\x00\x01S\x00\x01\
S\x00\x01S\x00\x01S\x00\x01S\x00\x01W\x00\x02S\x00\x02S\x00\x02S\x00\x02\
S\x00\x02S\x00\x02R\x00\x03S\x00\x03S\x00\x03S\x00\x03L\x00\x04S\x00\x04\
L\x00\x05S\x00\x05S\x00\x01S\x00\x01S\x00\x01S\x00\x01L\x00\x01S\x00\x01\
S\x00\x01S\x00\x01S\x00\x02L\x00\x02S\x00\x02S\x00\x02S\x00\x02S\x00\x02\
S\x00\x02S\x00\x02S\x00\x02S\x00\x02S\x00\x02S\x00\x02S\x00\x02S\x00\x02\
S\x00\x02S\x00\x02S\x00\x03S\x00\x03L\x00\x03S\x00\x03";

static LARGER_LINES: [u8; 641] =
    *b"R 4 asked\nS 4 entered\nR 5 asked\nS 5 entered\nW 1 asked\nS 1 moved\nS 1 moved\nS 1 moved\n\
S 1 moved\nS 1 moved\nS 1 moved\nS 1 moved\nS 1 moved\nS 1 moved\nS 1 moved\nS 1 moved\n\
S 1 moved\nS 1 moved\nS 1 moved\nS 1 waiting\nW 2 asked\nS 2 moved\nS 2 moved\nS 2 moved\n\
S 2 moved\nS 2 waiting\nR 3 asked\nS 3 moved\nS 3 moved\nS 3 waiting\nL 4 leaving\nS 4 free\n\
L 5 leaving\nS 5 free\nS 1 moved\nS 1 moved\nS 1 moved\nS 1 entered\nL 1 leaving\nS 1 moved\n\
S 1 moved\nS 1 free\nS 2 entered\nL 2 leaving\nS 2 moved\nS 2 moved\nS 2 moved\nS 2 moved\n\
S 2 moved\nS 2 moved\nS 2 moved\nS 2 moved\nS 2 moved\nS 2 moved\nS 2 moved\nS 2 moved\n\
S 2 moved\nS 2 free\nS 3 moved\nS 3 entered\nL 3 leaving\nS 3 free\n";

// What stands behind plan A, and the lines.
#[derive(Clone, Copy)]
struct Told(&'static [u8], &'static [u8]);

static TOLD: [Told; 9] = [
    Told(b"", b""),
    // an order that ends in a call, at a call and with no call
    Told(b"R\x00\x04S", b"R 4 asked\nbad 13 at 45\n"),
    Told(b"R\x00\x04S\x00", b"R 4 asked\nbad 13 at 45\n"),
    Told(b"R\x00\x04S\x00\x04", b"R 4 asked\nS 4 entered\n"),
    // letters that are unknown or not due; the calls behind do not run
    Told(b"X", b"bad 14 at 42\n"),
    Told(b"R\x00\x04GS\x00\x04", b"R 4 asked\nbad 14 at 45\n"),
    Told(b"R\x00\x04H", b"R 4 asked\nbad 13 at 45\n"),
    // calls that are refused
    Told(b"S\x00\x00L\x00\x06", b"S 0 refused 6\nL 6 refused 6\n"),
    Told(
        b"S\xff\xffL\x00\x01",
        b"S 65535 refused 6\nL 1 refused 10\n",
    ),
];

// Faults before G: an order and its one line.
static FAULTS: [Told; 4] = [
    Told(b"", b"bad 13 at 0\n"),
    Told(b"G", b"bad 14 at 0\n"),
    Told(b"H\x00", b"bad 13 at 0\n"),
    Told(b"W\x00\x01", b"bad 14 at 0\n"),
];

#[test]
fn a_larger_run(rt: HostRuntime) -> Result<(), Fail> {
    let text = transcribe(rt.alloc(), &LARGER)?;
    assert!(rt; text.as_slice() == LARGER_LINES.as_slice());
    Ok(())
}

#[test]
fn what_stands_behind_the_plan(rt: HostRuntime) -> Result<(), Fail> {
    let heap = rt.alloc();
    for Told(behind, lines) in TOLD {
        let mut order = LARGER[..42].to_vec(heap)?;
        order.extend_from_slice(behind)?;
        assert!(rt; transcribe(heap, order.as_slice())?.as_slice() == lines);
    }
    Ok(())
}

#[test]
fn faults_before_the_calls(rt: HostRuntime) -> Result<(), Fail> {
    let heap = rt.alloc();
    for Told(order, line) in FAULTS {
        assert!(rt; transcribe(heap, order)?.as_slice() == line);
    }
    Ok(())
}

#[test]
fn an_order_that_is_too_long(rt: HostRuntime) -> Result<(), Fail> {
    let heap = rt.alloc();
    let order = vec![in heap; 72u8; 65536]?;
    assert!(rt; transcribe(heap, order.as_slice())?.as_slice() == b"bad 16 at 65535\n".as_slice());
    Ok(())
}
