//! Reads an order from standard input and prints where everything of its plan lives, or what is wrong with it.
//! All text is made by `listing`; here it is only read and printed.
#![tactic(auto)]

use listing::report::report;
use order::read::LONGEST_ORDER;
use std::io::Read;

fn main(rt: HostRuntime) -> anyhow::Result<()> {
    // `treelock` reads in the same way: a library's function for both could not say in its contract what it reads.
    let heap = rt.alloc();
    let mut order = Vec::new(heap);
    // one byte past the limit is enough to see that an order is too long
    rt.stdin()
        .take(LONGEST_ORDER as u64 + 1)
        .read_to_end(&mut order)?;
    let text = report(heap, order.as_slice())?;
    rt.print(text)?;
    Ok(())
}
