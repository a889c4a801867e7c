// The line of a register, read back: the cell that it names, and its value. Four bytes are compared at a time, and a digit is looked up in a
// table, which the caller lends.
#![tactic(auto)]

ghost use Rattle.std.specs.Prelude.{◌≡◌, ◌+◌, ◌<◌, ◌≤◌, length, drop, IfSome, IfNone};
ghost use Rattle.meaning.specs.Registers.{cells};
ghost use Rattle.line_reader.specs.Named.{digit_table, hex_digit, cell_3d_by, cell_3d_of, cell_video_of};
ghost use Rattle.line_reader.specs.Read.{Four, DigitsAt, NameAt, NoName, ValueAt, LineAt};

use meaning::FIRST_VIDEO;

// `reg=` and ` val`, the first byte lowest.
const REG_KEY: u32 = 0x3d676572;

const VAL_KEY: u32 = 0x6c617620;

// A parameter is known to be a byte, which an element of a slice is not.
fn wide(byte: u8) -> u32
    ensures same { result ≡ byte }
    ensures byte { result < 256 }
{
    byte as u32
}

// Four bytes from `at` on. The sum in this order compiles to one load.
fn four(text: &[u8], at: usize) -> u32
    requires inside { at + 4 ≤ length text.now }
    ensures four { Four text.now at result }
{
    wide(text[at])
        + wide(text[at + 1]) * 256
        + wide(text[at + 2]) * 65536
        + wide(text[at + 3]) * 16777216
}

// What a hex digit counts. The table has 16 for any other byte.
fn digit_of(digits: &[u8; 256], x: u8) -> Option<u32>
    requires table { digits.now ≡ digit_table }
    ensures digit { result ≡ hex_digit x }
{
    let d = wide(digits[x as usize]);
    if 15 < d {
        return None;
    }
    Some(d)
}

// The 3D cell whose name is these eight bytes, as `01.0` and `0.3f`, with the digit n.
#[tactic(auto, unfolding(crate::specs::Named::cell_3d_by))]
fn cell_by(n: usize, kind: u32, name: u32) -> Option<usize>
    requires digit { n < 16 }
    ensures cell { result ≡ cell_3d_by n kind name }
{
    let address = name / 256;
    match kind {
        // 01.0: the target, 0.3f and 0.50 to 0.52
        0x302e3130 => match name {
            0x66332e30 => Some(0),
            0x30352e30 => Some(1),
            0x31352e30 => Some(2),
            0x32352e30 => Some(3),
            _ => None,
        },
        // 02.0: stage n, .50 and .51
        0x302e3230 => match address {
            0x30352e => Some(4 + 2 * n),
            0x31352e => Some(5 + 2 * n),
            _ => None,
        },
        // 02.2: sample n, .30 to .32
        0x322e3230 => match address {
            0x30332e => Some(36 + 3 * n),
            0x31332e => Some(37 + 3 * n),
            0x32332e => Some(38 + 3 * n),
            _ => None,
        },
        _ => None,
    }
}

// The same; the digit is the first byte of the second half.
#[tactic(auto, unfolding(crate::specs::Named::cell_3d_of, crate::specs::Named::hex_digit))]
fn cell_3d(digits: &[u8; 256], kind: u32, name: u32) -> Option<usize>
    requires table { digits.now ≡ digit_table }
    ensures cell { result ≡ cell_3d_of kind name }
{
    let n = digit_of(digits, (name % 256) as u8)?;
    cell_by(n as usize, kind, name)
}

// The video cell whose offset is these four digits.
#[tactic(auto, unfolding(crate::specs::Named::cell_video_of))]
fn cell_video(offset: u32) -> Option<usize>
    ensures cell { result ≡ cell_video_of offset }
{
    match offset {
        // 2208, 220c, 2210
        0x38303232 => Some(84),
        0x63303232 => Some(85),
        0x30313232 => Some(86),
        // 23e4 to 23fc
        0x34653332 => Some(87),
        0x38653332 => Some(88),
        0x63653332 => Some(89),
        0x30663332 => Some(90),
        0x34663332 => Some(91),
        0x38663332 => Some(92),
        0x63663332 => Some(93),
        // 33e4 to 33fc
        0x34653333 => Some(94),
        0x38653333 => Some(95),
        0x63653333 => Some(96),
        0x30663333 => Some(97),
        0x34663333 => Some(98),
        0x38663333 => Some(99),
        0x63663333 => Some(100),
        _ => None,
    }
}

// The cell whose name stands in a line, and where the name ends.
#[derive(Clone, Copy)]
struct Name {
    cell: usize,
    end: usize,
}

// The name in the line from `at` on.
fn name_at(digits: &[u8; 256], text: &[u8], at: usize) -> Option<Name>
    requires table { digits.now ≡ digit_table }
    requires inside { at + 12 ≤ length text.now }
    ensures name { IfSome result (NameAt (drop at text.now)) }
    ensures none { IfNone result (NoName (drop at text.now)) }
{
    if four(text, at) != REG_KEY {
        return None;
    }
    let kind = four(text, at + 4);
    if let Some(cell) = cell_3d(digits, kind, four(text, at + 8)) {
        return Some(Name { cell, end: 12 });
    }
    let cell = cell_video(kind)?;
    Some(Name { cell, end: 8 })
}

// The eight digits from `at` on.
fn digits_at(digits: &[u8; 256], text: &[u8], at: usize) -> Option<u32>
    requires table { digits.now ≡ digit_table }
    requires inside { at + 8 ≤ length text.now }
    ensures value { DigitsAt (drop at text.now) result }
{
    let mut value: u32 = 0;
    for i in 0..8 {
        value = value * 16 + digit_of(digits, text[at + i])?;
    }
    Some(value)
}

// The value at the end of a line from `at` on, as ` val=00001000`.
fn value_at(digits: &[u8; 256], text: &[u8], at: usize) -> Option<u32>
    requires table { digits.now ≡ digit_table }
    requires inside { at + 14 ≤ length text.now }
    ensures value { ValueAt (drop at text.now) result }
{
    if four(text, at) != VAL_KEY {
        return None;
    }
    if text[at + 4] != b'=' {
        return None;
    }
    if text[at + 13] != b'\n' {
        return None;
    }
    digits_at(digits, text, at + 5)
}

// A line: its cell, and its value.
#[derive(Clone, Copy)]
pub struct Line {
    pub cell: usize,
    pub value: u32,
}

// The line from `at` on, if it is that of a cell from `first` to before `end`.
pub fn read_line(
    digits: &[u8; 256],
    text: &[u8],
    at: usize,
    first: usize,
    end: usize,
) -> Option<Line>
    requires table { digits.now ≡ digit_table }
    requires inside { at ≤ length text.now }
    requires cells { end ≤ cells }
    ensures line { LineAt (drop at text.now) first end result }
{
    let rest = text.len() - at;
    if rest < 22 {
        return None;
    }
    let name = name_at(digits, text, at)?;
    if name.cell < first {
        return None;
    }
    if end <= name.cell {
        return None;
    }
    if rest < name.end + 14 {
        return None;
    }
    let value = value_at(digits, text, at + name.end)?;
    if name.cell < FIRST_VIDEO {
        if 0xffffff < value {
            return None;
        }
    }
    Some(Line {
        cell: name.cell,
        value,
    })
}
