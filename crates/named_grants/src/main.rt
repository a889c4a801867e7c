// Runs the query beside a second one that shares nothing with it, written from the rules. A page, its standard input, has
// calls by hand with their answers, then families of calls to make: lists in which each grant in turn is the one to tell,
// states and lists that break their rules or nearly, made-up cases, and addresses that the reader takes or refuses. It
// prints how many calls of each family were answered how, how often each grant was told, and how many answers differed.
#![tactic(auto)]

mod address_registers;
mod answer;
mod calls;
mod dice;
mod families;
mod grant;
mod laying;
mod lent;
mod making;
mod page;
mod run;
mod second;
mod tally;

use run::Run;
use std::io;
use std::io::Read;

// As many bytes as are read; what stands behind them is not looked at.
const ROOM: u64 = 65536;

fn main(rt: HostRuntime) -> io::Result<()> {
    // Kept: room for all of it at once, so that no room is left behind on the way.
    let mut page = Vec::with_capacity(rt.alloc(), ROOM as usize)?;
    rt.stdin().take(ROOM).read_to_end(&mut page)?;
    let mut run = Run::new(rt);
    run.run_page(&page)?;
    run.tally.tell_end(&rt)
}
