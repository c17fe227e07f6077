//! Runs many orders, one after another, for a comparison with a model: each is four bytes of length, the most
//! significant first, and then the order. Prints the lines of each run, and behind them a line `end`.
#![tactic(auto)]

use std::io::{Read, Write};
use transcript::program::transcribe;

// Some hundred orders; one more byte would only be cut off.
const MOST_BYTES: u64 = 4000000;

fn main(rt: HostRuntime) -> anyhow::Result<()> {
    let heap = rt.alloc();
    let mut orders = Vec::new(heap);
    rt.stdin().take(MOST_BYTES).read_to_end(&mut orders)?;
    let mut rest = orders.as_slice();
    while let Some((length, behind)) = rest.split_first_chunk::<4>() {
        let length = u32::from_be_bytes(*length) as usize;
        let (order, next) = behind.split_at(length.min(behind.len()));
        let text = transcribe(heap, order)?;
        rt.stdout().write_all(text.as_slice())?;
        rt.stdout().write_all(b"end\n")?;
        rest = next;
    }
    Ok(())
}
