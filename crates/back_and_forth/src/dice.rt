// Dice: of each number that a case has, and each throw of it, any word.

// Dice of a number.
#[derive(Clone, Copy)]
pub(super) struct Dice(pub(super) u32);

fn scrambled(x: u32) -> u32 {
    let a = x ^ x << 13;
    let b = a ^ a >> 17;
    b ^ b << 5
}

impl Dice {
    pub(super) fn throw(self, throws: usize) -> u32 {
        let throws = (throws & 0xffff_ffff) as u32;
        let a = scrambled(self.0.wrapping_add(throws).wrapping_add(0x9e37_79b9));
        let b = scrambled(a.wrapping_add(a << 7));
        scrambled(b.wrapping_add(b << 12))
    }

    // The dice of what is thrown.
    pub(super) fn thrown(self, throws: usize) -> Dice {
        Dice(self.throw(throws))
    }
}
