// Runs the reader and the lister on the cases of a page, its standard input, where every answer stands too: K1 to K41
// of docs/RULES.md, both sides of every row of the register table, fields gone through code by code, and listings. Of
// the reader it has no rule of its own but those of the pair, which is judged a second time in every combination of
// state, grants and words; beside the lister runs a second one that shares nothing with it, on every state that a case
// leaves. It prints how many calls each family made and how many answers or buffers were not as expected,
// and how often each reason was told.
#![tactic(auto)]

mod answers;
mod calls;
mod cases;
mod checks;
mod listing;
mod lists;
mod page;
mod pairs;
mod state;
mod tally;

use cases::Run;
use std::io;
use std::io::Read;

// As many bytes as are read; what stands behind them is not looked at.
const MOST_BYTES: u64 = 65536;

fn main(rt: HostRuntime) -> io::Result<()> {
    let alloc = rt.alloc();
    // Kept: room for all of it at once, so that no room is left behind on the way.
    let mut page = Vec::with_capacity(alloc, MOST_BYTES as usize)?;
    rt.stdin().take(MOST_BYTES).read_to_end(&mut page)?;
    let mut run = Run::new(alloc, rt);
    run.page(&page)?;
    run.tell_all()
}
