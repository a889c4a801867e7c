// Runs the listing reader beside a second one that shares nothing with it, written from the rules with a table of its
// own. A page, its standard input, has that table, texts by hand with their answers, and the families of texts to make
// up: listings of states of every number of cells, whole or damaged in one place. A whole one has to give its state back,
// and that state the same listing. It prints how many calls each family made and how many of all differed, how often each
// reason was told, and in which part of a listing texts stopped being one.
#![tactic(auto)]

mod answer;
mod calls;
mod dice;
mod families;
mod listing;
mod page;
mod readers;
mod second;
mod state;
mod tally;

use readers::Readers;
use std::io;
use std::io::Read;

// As many bytes of the page as are read; what stands behind them is not looked at.
const MOST_BYTES: u64 = 65536;

fn main(rt: HostRuntime) -> io::Result<()> {
    let mut readers = Readers::new(rt)?;
    // Kept: room for all of it at once, so that no room is left behind on the way.
    let mut page = Vec::with_capacity(rt.alloc(), MOST_BYTES as usize)?;
    rt.stdin().take(MOST_BYTES).read_to_end(&mut page)?;
    readers.run_page(&page)?;
    readers.tally.tell_end()
}
