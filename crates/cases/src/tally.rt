// What is counted and told: calls and differences of the family at work, calls by reason, and a line for each of a
// family's first differences.

use super::answers::{Answer, Expected, Numbers, Reason};
use std::alloc::Global;
use std::io;

// A family's first five differences are told.
const MOST_TOLD: u32 = 5;

// The family at work, and what is counted of it.
#[derive(Drop)]
struct Family {
    name: Vec<u8>,
    calls: u32,
    differences: u32,
}

impl Family {
    fn new(name: Vec<u8>) -> Family {
        Family {
            name,
            calls: 0,
            differences: 0,
        }
    }
}

// The calls that were refused for that reason.
#[derive(Clone, Copy)]
struct Refused {
    reason: Reason,
    calls: u32,
}

#[derive(Drop)]
pub(super) struct Tally {
    rt: HostRuntime,
    // The page's line that is being run, and the case of it.
    line: u32,
    case: u32,
    family: Family,
    // In all families.
    differences: u32,
    accepted: u32,
    refused: [Refused; Reason::ALL.len()],
}

impl Tally {
    pub(super) fn new(alloc: Global, rt: HostRuntime) -> Tally {
        Tally {
            rt,
            line: 0,
            case: 0,
            family: Family::new(Vec::new(alloc)),
            differences: 0,
            accepted: 0,
            refused: Reason::ALL.map(|reason| Refused { reason, calls: 0 }),
        }
    }

    pub(super) fn begin_line(&mut self) {
        self.line = self.line.wrapping_add(1);
    }

    pub(super) fn begin_case(&mut self, case: u32) {
        self.case = case;
    }

    // The family's calls so far.
    pub(super) fn calls(&self) -> u32 {
        self.family.calls
    }

    // Counts a call. Besides the answer, the buffer that was lent has to be fine.
    pub(super) fn note(&mut self, told: Answer, expected: Expected, fine: bool) -> io::Result<()> {
        self.family.calls = self.family.calls.wrapping_add(1);
        self.count(told);
        if fine && expected.allows(told) {
            return Ok(());
        }
        self.note_difference(told, expected)
    }

    fn count(&mut self, told: Answer) {
        match told {
            Ok(_) => self.accepted = self.accepted.wrapping_add(1),
            Err(refusal) => {
                for refused in &mut self.refused {
                    if refused.reason == refusal.reason {
                        refused.calls = refused.calls.wrapping_add(1);
                    }
                }
            }
        }
    }

    fn note_difference(&mut self, told: Answer, expected: Expected) -> io::Result<()> {
        self.differences = self.differences.wrapping_add(1);
        self.family.differences = self.family.differences.wrapping_add(1);
        if self.family.differences > MOST_TOLD {
            return Ok(());
        }
        println!(self.rt;
            "difference, in the family below: line={} case={} told={} expected={expected}",
            self.line,
            self.case,
            Numbers::from(told)
        )
    }

    // Ends the family at work, and begins the one of that name.
    pub(super) fn begin_family(&mut self, name: Vec<u8>) -> io::Result<()> {
        self.tell_family()?;
        self.family = Family::new(name);
        Ok(())
    }

    // A family with no case is not told, so neither is the time before the first.
    fn tell_family(&self) -> io::Result<()> {
        let Family {
            name,
            calls,
            differences,
        } = &self.family;
        if *calls == 0 {
            return Ok(());
        }
        print!(self.rt; "family=")?;
        self.rt.write_all(name)?;
        println!(self.rt; " calls={calls} differences={differences}")
    }

    fn tell_reasons(&self) -> io::Result<()> {
        println!(self.rt; "reason=0 calls={}", self.accepted)?;
        for Refused { reason, calls } in self.refused {
            println!(self.rt; "reason={} calls={calls}", reason as u32)?;
        }
        Ok(())
    }

    // Ends the last family, and tells what all have come to.
    pub(super) fn tell_all(&self) -> io::Result<()> {
        self.tell_family()?;
        self.tell_reasons()?;
        if self.differences == 0 {
            println!(self.rt; "all as expected")
        } else {
            println!(self.rt; "NOT as expected: differences={}", self.differences)
        }
    }
}
