// Kept grants, asked: those of a role, and which of them admits an address.
ghost use Rattle.std.specs.Prelude.{◌≡◌, ◌<◌};
ghost use Rattle.meaning.specs.Grants.{most_grants};
ghost use Rattle.grants.specs.Kept as kept;
ghost use Rattle.grants.specs.Held.{OfRole, which_of};

use super::{Bounds, Kept, Part, RoleGrants, lies, numbered};
use meaning::Memory;

impl Part {
    // The part of a role, by whatever bounds.
    pub fn of(bounds: &Bounds, role: usize) -> Part
        requires role { role < 4 }
        ensures part { result ≡ kept.part_of bounds.now role }
    {
        Part {
            from: bounds[role],
            to: bounds[4 + role],
        }
    }
}

impl<'a> Kept<'a> {
    // Those of a role.
    pub fn part_of(&self, role: usize) -> RoleGrants<'a>
        requires role { role < 4 }
        ensures role { OfRole self.now role result }
    {
        RoleGrants {
            starts: self.starts,
            lasts: self.lasts,
            numbers: self.numbers,
            part: Part::of(self.bounds, role),
        }
    }
}

impl RoleGrants<'_> {
    // A kept grant covers the address, in the memory. Which memory it is in is asked last, so that a miss looks at two words alone.
    #[tactic(auto, unfolding(crate::specs::Kept::covers_at, crate::specs::Kept::spans_at))]
    fn covers(&self, i: usize, memory: Memory, address: u32) -> bool
        requires inside { i < most_grants }
        ensures covers { result ≡ kept.covers_at self.now.starts.now self.now.lasts.now self.now.numbers.now i memory address }
    {
        self.starts[i] <= address && address <= self.lasts[i] && lies(memory, self.numbers[i])
    }

    // THE TEST: the grant that admits the address, in whichever memory or in one. The first that covers it is the lowest-numbered, since a
    // part keeps the order of the list. The last is asked behind the loop, so that nothing is made ready for a miss inside it; a number is
    // looked at where one covers.
    pub fn which(&self, memory: Memory, address: u32) -> Option<usize>
        ensures which { result ≡ which_of self.now memory address }
    {
        if self.part.to <= self.part.from {
            return None;
        }
        let last = self.part.to - 1;
        for i in self.part.from..last {
            if self.covers(i, memory, address) {
                return Some(numbered(self.numbers[i]));
            }
        }
        if self.covers(last, memory, address) {
            return Some(numbered(self.numbers[last]));
        }
        None
    }
}
