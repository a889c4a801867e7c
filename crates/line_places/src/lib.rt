// How far a text goes along the lines that registers may have: for the place of a refusal.
#![tactic(auto)]

ghost use Rattle.std.specs.Prelude.{◌≡◌, ◌++◌, map, ◌+◌, ◌-◌, ◌<◌, ◌≤◌, length, drop, replicate};
ghost use Rattle.meaning.specs.Registers.{cells, first_video, end_video};
ghost use Rattle.meaning.specs.Text.{ascii};
ghost use Rattle.meaning.specs.Lister.{digit};
ghost use Rattle.meaning.specs.ListingReader.{fixed, any_digit, is_hex, along, form_of};
ghost use Rattle.listings.specs.Lines.{name_3d, name_video, line_for, furthest_of};
ghost use Rattle.line_places.specs.Forms.{form_with};

use meaning::{Cell, FIRST_VIDEO};

// A digit of a name: 0 to 9, then a to f.
#[tactic(auto, using(laws::proofs::Arms::tests), unfolding(meaning::specs::Lister::digit))]
fn hex_digit(d: u32) -> u8
    requires small { d < 16 }
    ensures digit { result ≡ digit d }
{
    if d < 10 {
        return (48 + d) as u8;
    }
    (87 + d) as u8
}

// As `reg=01.00.50 val=00`: a 3D value has 24 bits, so its first two digits are 0.
fn before_3d(cell: Cell) -> [u8; 19]
    requires cell { cell.0 < first_video }
    ensures text { result ≡ name_3d cell.0 ++ ascii " val=00" }
{
    let name = registers::name_of(cell);
    let address = name.address;
    [
        b'r',
        b'e',
        b'g',
        b'=',
        hex_digit(name.ty / 16 % 16),
        hex_digit(name.ty % 16),
        b'.',
        hex_digit(name.sub / 16 % 16),
        hex_digit(name.sub % 16),
        b'.',
        hex_digit(address.0 / 16 % 16),
        hex_digit(address.0 % 16),
        b' ',
        b'v',
        b'a',
        b'l',
        b'=',
        b'0',
        b'0',
    ]
}

// As `reg=23f0 val=`.
fn before_video(cell: Cell) -> [u8; 13]
    requires low { first_video ≤ cell.0 }
    requires high { cell.0 < end_video }
    ensures text { result ≡ name_video cell.0 ++ ascii " val=" }
{
    let offset = registers::offset_of(cell);
    [
        b'r',
        b'e',
        b'g',
        b'=',
        hex_digit(offset.0 / 4096 % 16),
        hex_digit(offset.0 / 256 % 16),
        hex_digit(offset.0 / 16 % 16),
        hex_digit(offset.0 % 16),
        b' ',
        b'v',
        b'a',
        b'l',
        b'=',
    ]
}

// How many bytes from `at` on are as expected.
fn agree(text: &[u8], at: usize, expected: &[u8]) -> usize
    requires inside { at ≤ length text.now }
    ensures bytes { result ≡ along (map fixed expected.now) (drop at text.now) }
{
    for i in 0..expected.len() {
        if text.len() - at <= i || text[at + i] != expected[i] {
            return i;
        }
    }
    expected.len()
}

// A hex digit, in lower case.
#[tactic(auto, using(laws::proofs::Arms::spans), unfolding(meaning::specs::ListingReader::is_hex))]
fn is_hex(x: u8) -> bool
    ensures hex { result ≡ is_hex x }
{
    matches!(x, b'0'..=b'9' | b'a'..=b'f')
}

// How many hex digits stand from `at` on, at most n.
fn hex_run(text: &[u8], at: usize, n: usize) -> usize
    requires inside { at ≤ length text.now }
    ensures digits { result ≡ along (replicate n any_digit) (drop at text.now) }
{
    for i in 0..n {
        if text.len() - at <= i || !is_hex(text[at + i]) {
            return i;
        }
    }
    n
}

// How many bytes from `at` on follow a line: those before its free digits, n digits, and the line's end.
fn along_line(text: &[u8], at: usize, before: &[u8], n: usize) -> usize
    requires inside { at ≤ length text.now }
    ensures bytes { result ≡ along (form_with before.now n) (drop at text.now) }
{
    let agreed = agree(text, at, before);
    if agreed < before.len() {
        return agreed;
    }
    let digits = hex_run(text, at + agreed, n);
    if digits < n {
        return agreed + digits;
    }
    let end = at + agreed + n;
    if text.len() <= end {
        return agreed + n;
    }
    if text[end] != b'\n' {
        return agreed + n;
    }
    agreed + n + 1
}

// The same of a cell's line.
fn along_cell(text: &[u8], at: usize, c: usize) -> usize
    requires inside { at ≤ length text.now }
    requires cell { c < cells }
    ensures bytes { result ≡ along (form_of (line_for c)) (drop at text.now) }
{
    if c < FIRST_VIDEO {
        let before = before_3d(Cell(c));
        return along_line(text, at, &before, 6);
    }
    let before = before_video(Cell(c));
    along_line(text, at, &before, 8)
}

// The most bytes from `at` on that follow the line of one cell from `first` to before `end`.
pub fn furthest(text: &[u8], at: usize, first: usize, end: usize) -> usize
    requires inside { at ≤ length text.now }
    requires cells { end ≤ cells }
    ensures bytes { result ≡ furthest_of first (end - first) (drop at text.now) }
{
    let mut far = 0;
    for c in first..end {
        far = far.max(along_cell(text, at, c));
    }
    far
}
