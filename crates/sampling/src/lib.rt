// The column "Values" for the registers of a sample: one test for each rule, under the names that the definitions have.
#![tactic(auto)]

ghost use Rattle.std.specs.Prelude.{◌≡◌, [], ◌∷◌, ◌&&◌, ◌/◌, ◌%◌, leb};
ghost use Rattle.laws.specs.Tests.{one_of};
ghost use Rattle.meaning.specs.Registers as rules;

// Levels 0 to B; the other codes are reserved.
fn level_code(code: u32) -> bool
    ensures permitted { result ≡ leb code 11 }
{
    match code {
        0..=11 => true,
        _ => false,
    }
}

// The highest level of a texture, then the lowest. Which of them is larger is not asked.
pub fn levels(value: u32) -> bool
    ensures rule { result ≡ rules.levels value }
{
    if !level_code(value / 0x40 % 0x40) {
        return false;
    }
    level_code(value % 0x40)
}

// Nearest, linear, linear anisotropy, 4x4; the other codes are reserved.
fn filter_code(code: u32) -> bool
    ensures permitted { result ≡ leb code 3 }
{
    match code {
        0..=3 => true,
        _ => false,
    }
}

// Always level 0, nearest, linear, dither; 3 is reserved, and so is what is above 4.
fn depth_code(code: u32) -> bool
    ensures permitted { result ≡ one_of code (0 ∷ 1 ∷ 2 ∷ 4 ∷ []) }
{
    match code {
        0 => true,
        1 => true,
        2 => true,
        4 => true,
        _ => false,
    }
}

// Which filters are linear anisotropy, a bit for each: none of them, both that enlarge, both that shrink, or all four.
fn tied_set(twos: u32) -> bool
    ensures permitted { result ≡ one_of twos (0 ∷ 0x2080 ∷ 0x410 ∷ 0x2490 ∷ []) }
{
    match twos {
        0 => true,
        0x2080 => true,
        0x410 => true,
        0x2490 => true,
        _ => false,
    }
}

// 2 is linear anisotropy, which needs both directions, S and T: for enlarging and for shrinking, both codes are 2 or neither is. Of codes
// that are at most 3 the low two bits tell all. A code is 2 if its upper bit is set and its lower one is not; all four are asked at once.
fn tied(value: u32) -> bool
    ensures permitted { result ≡ (rules.both_two (value / 0x2000 % 4) (value / 0x80 % 4) && rules.both_two (value / 0x400 % 4) (value / 0x10 % 4)) }
{
    tied_set(((value / 2 | value) ^ value) & 0x2490)
}

// The ratio of anisotropy, then the filters: enlarging and shrinking in S, enlarging and shrinking in T, shrinking in D. Those in S are
// tied to those in T.
pub fn filters(value: u32) -> bool
    ensures rule { result ≡ rules.filters value }
{
    if 16 < value / 0x10000 % 0x20 {
        return false;
    }
    if !filter_code(value / 0x2000 % 8) {
        return false;
    }
    if !filter_code(value / 0x400 % 8) {
        return false;
    }
    if !filter_code(value / 0x80 % 8) {
        return false;
    }
    if !filter_code(value / 0x10 % 8) {
        return false;
    }
    if !depth_code(value % 0x10) {
        return false;
    }
    tied(value)
}

// Nearest, linear: volume textures know no other filter.
fn volume_code(code: u32) -> bool
    ensures permitted { result ≡ leb code 1 }
{
    match code {
        0..=1 => true,
        _ => false,
    }
}

// Border colour, clamp, repeat, mirror, then a gap before mirror once.
fn mapping_code(code: u32) -> bool
    ensures permitted { result ≡ rules.mapping_code code }
{
    match code {
        0..=3 => true,
        7 => true,
        _ => false,
    }
}

// The filters in R, enlarging and shrinking, then how the axes R, T and S go on outside the texture.
pub fn mapping(value: u32) -> bool
    ensures rule { result ≡ rules.mapping value }
{
    if !volume_code(value / 0x80000 % 8) {
        return false;
    }
    if !volume_code(value / 0x10000 % 8) {
        return false;
    }
    if !mapping_code(value / 0x40 % 8) {
        return false;
    }
    if !mapping_code(value / 8 % 8) {
        return false;
    }
    mapping_code(value % 8)
}
