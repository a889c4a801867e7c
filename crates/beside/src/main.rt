// Runs the reader, the size and the writer beside second ones that share nothing with them, written from the rules with a
// table of their own: on made-up batches and grants, whole or damaged in one place, and on the states that accepted batches
// leave. Each batch is also fed to an engine, word by word, and to one that is nearly full. No answer is stated here: the
// two have to agree, in every byte of every buffer too. It prints how many calls each family made, how many words it fed,
// and how many of all differed; how often each reason was told; and how many of the made-up values for each row of the
// table are taken or refused.
#![tactic(auto)]

mod answer;
mod calls;
mod dice;
mod due;
mod families;
mod lists;
mod making;
mod second;
mod sides;
mod tally;

use families::FAMILIES;
use sides::Beside;
use std::io;

fn main(rt: HostRuntime) -> io::Result<()> {
    let mut beside = Beside::new(rt.alloc());
    families::every_prefix_and_bit(&rt, &mut beside)?;
    for family in &FAMILIES {
        family.run(&rt, &mut beside)?;
    }
    beside.tally.tell(&rt)
}
