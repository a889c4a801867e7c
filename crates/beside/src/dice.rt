// The dice: every made-up thing follows from a seed, so that each run makes the same ones.

#[derive(Clone, Copy)]
pub(crate) struct Seed(pub(super) u32);

impl Seed {
    // A throw: for each number another seed.
    pub(crate) fn throw(self, throws: u32) -> Seed {
        let a = scrambled(self.0.wrapping_add(throws).wrapping_add(0x9e3779b9));
        let b = scrambled(a.wrapping_add(a << 7));
        Seed(scrambled(b.wrapping_add(b << 11)))
    }

    // One of so many numbers from 0, and 0 where there is none.
    pub(crate) fn below(self, n: usize) -> usize {
        (self.0 as usize).checked_rem(n).unwrap_or(0)
    }
}

fn scrambled(x: u32) -> u32 {
    let a = x ^ x << 13;
    let b = a ^ a >> 17;
    b ^ b << 5
}
