// The dice: of each number that a case has, and each throw of it, any word.

fn scrambled(x: u32) -> u32 {
    let a = x ^ x << 13;
    let b = a ^ a >> 17;
    b ^ b << 5
}

pub(super) fn dice(seed: u32, throws: u32) -> u32 {
    let a = scrambled(seed.wrapping_add(throws).wrapping_add(0x9e3779b9));
    let b = scrambled(a.wrapping_add(a << 7));
    scrambled(b.wrapping_add(b << 11))
}
