// The columns "Must be clear" and "Values" of the register table: one test for each rule, under the names that the definitions have. The
// rules for a sample's registers are in `sampling`.
#![tactic(auto)]

ghost use Rattle.std.specs.Prelude.{◌≡◌, eqb};
ghost use Rattle.std.specs.Int.Bits.{bit_and};
ghost use Rattle.meaning.specs.Registers as rules;

// Every bit of the mask is clear.
pub fn must_be_clear(value: u32, mask: u32) -> bool
    ensures clear { result ≡ eqb (bit_and value mask) 0 }
{
    let clear = !value;
    clear & mask == mask
}

// Two constants from 0.0 to 1.0. 1024 stands for 1.0, so the rest of the eleven bits is without meaning.
pub fn alpha_constants(value: u32) -> bool
    ensures rule { result ≡ rules.alpha_constants value }
{
    value / 0x1000 % 0x800 <= 1024 && value % 0x800 <= 1024
}

// The target's location is 0, the local frame buffer, or 1, the dynamic one; by house choice nothing else.
pub fn location(value: u32) -> bool
    ensures rule { result ≡ rules.location value }
{
    value / 0x100000 % 4 <= 1
}

// Bytes per pixel of each format byte, 0 where it is reserved: a hex digit for each of the 256, sixteen to a row, the lowest in the lowest
// place. A constant table is copied wherever it is used, so that one of 256 bytes would cost twice as much as the rest of a word.
const BYTES_PER_PIXEL: [u64; 16] = [
    0x0000000000000000,
    0x0000000002200000,
    0x0000000000000000,
    0x0000000000000002,
    0x0000000000000000,
    0x0000000000000000,
    0x0000000000000000,
    0x0000000000000000,
    0x0020222200000000,
    0x0000044400000000,
    0x0020222200000000,
    0x0000444400000000,
    0x0020222200000000,
    0x0000044400000000,
    0x0000044400202222,
    0x0000000000440002,
];

// Only the low eight bits count: so every number has an answer, and no index needs a test.
pub fn bytes_per_pixel(byte: u32) -> u64
    ensures found { result ≡ rules.bytes_per_pixel byte }
{
    let row = BYTES_PER_PIXEL[(byte / 16 % 16) as usize];
    (row >> (byte % 16 * 4)) % 16
}

// A format byte is permitted exactly if its pixels have bytes.
pub fn format_byte(value: u32) -> bool
    ensures rule { result ≡ rules.format_byte value }
{
    0 < bytes_per_pixel(value / 0x10000 % 0x100)
}

// Where alpha comes from; 3 is reserved.
pub fn alpha_select(value: u32) -> bool
    ensures rule { result ≡ rules.alpha_select value }
{
    value % 4 != 3
}

// As in `location`, for the addresses of the scalers.
pub fn memory_location(value: u32) -> bool
    ensures rule { result ≡ rules.memory_location value }
{
    value % 4 == 0
}
