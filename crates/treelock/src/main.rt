//! Reads an order from standard input, runs it, and prints the lines of the run.
//! All work is done by `transcript`; here bytes are only read and printed.
#![tactic(auto)]

use order::read::LONGEST_ORDER;
use std::io::{Read, Write};
use transcript::program::transcribe;

fn main(rt: HostRuntime) -> anyhow::Result<()> {
    // `homes` reads in the same way: a library's function for both could not say in its contract what it reads.
    let heap = rt.alloc();
    let mut order = Vec::new(heap);
    // one byte past the limit is enough to see that an order is too long
    rt.stdin()
        .take(LONGEST_ORDER as u64 + 1)
        .read_to_end(&mut order)?;
    let text = transcribe(heap, order.as_slice())?;
    rt.stdout().write_all(text.as_slice())?;
    Ok(())
}
