// The lister: the state as key=value lines.
#![tactic(auto)]

ghost use Rattle.std.specs.Prelude.{◌≡◌, ◌+◌, ◌*◌, ◌-◌, ◌<◌, ◌≤◌, length};
ghost use Rattle.std.proofs.lemmas.List.Edits.{sets};
ghost use Rattle.laws.specs.Lists.{join};
ghost use Rattle.meaning.specs.Words.{words_of};
ghost use Rattle.meaning.specs.Registers.{first_video, end_video};
ghost use Rattle.meaning.specs.State.{state_words, marked, count_in};
ghost use Rattle.meaning.specs.Answers.{answer_in};
ghost use Rattle.meaning.specs.Lister.{digit, decimal, list_answer, list_leaves};
ghost use Rattle.lines.specs.Lines.{digit_pairs, cell_line_3d, cell_line_video};
ghost use Rattle.lister.specs.Listed.{lines_from, head_line};

use meaning::{Answer, Cell, END_VIDEO, FIRST_VIDEO, Reason};

// The two digits of each byte. A constant is copied wherever it is used, so `list` makes one copy and lends it.
const DIGIT_PAIRS: [u8; 512] = *b"\
    000102030405060708090a0b0c0d0e0f\
    101112131415161718191a1b1c1d1e1f\
    202122232425262728292a2b2c2d2e2f\
    303132333435363738393a3b3c3d3e3f\
    404142434445464748494a4b4c4d4e4f\
    505152535455565758595a5b5c5d5e5f\
    606162636465666768696a6b6c6d6e6f\
    707172737475767778797a7b7c7d7e7f\
    808182838485868788898a8b8c8d8e8f\
    909192939495969798999a9b9c9d9e9f\
    a0a1a2a3a4a5a6a7a8a9aaabacadaeaf\
    b0b1b2b3b4b5b6b7b8b9babbbcbdbebf\
    c0c1c2c3c4c5c6c7c8c9cacbcccdcecf\
    d0d1d2d3d4d5d6d7d8d9dadbdcdddedf\
    e0e1e2e3e4e5e6e7e8e9eaebecedeeef\
    f0f1f2f3f4f5f6f7f8f9fafbfcfdfeff\
    ";

#[tactic(auto, using(laws::proofs::Arms::tests), unfolding(meaning::specs::Lister::digit))]
fn decimal_digit(d: usize) -> u8
    requires small { d < 10 }
    ensures digit { result ≡ digit d }
{
    (48 + d) as u8
}

// Known before the digits are stored, since a refusal must not have stored any.
#[tactic(auto, using(laws::proofs::Arms::tests), unfolding(meaning::specs::Lister::decimal))]
fn decimal_length(n: usize) -> usize
    ensures length { (result ≡ length (decimal n)) × (result ≤ 3) }
{
    if n < 10 {
        return 1;
    }
    if n < 100 {
        return 2;
    }
    3
}

fn put_decimal(out: &mut [u8], at: usize, n: usize)
    requires small { n < 1000 }
    requires room { at + length (decimal n) ≤ length out.old }
    ensures stored { out.new ≡ sets out.old at (decimal n) }
{
    if n < 10 {
        out[at] = decimal_digit(n);
        return;
    }
    if n < 100 {
        out[at] = decimal_digit(n / 10);
        out[at + 1] = decimal_digit(n % 10);
        return;
    }
    out[at] = decimal_digit(n / 100);
    out[at + 1] = decimal_digit(n / 10 % 10);
    out[at + 2] = decimal_digit(n % 10);
}

// As `cells=1`.
fn put_head(out: &mut [u8], n: usize, digits: usize)
    requires small { n < 1000 }
    requires digits { digits ≡ length (decimal n) }
    requires room { 7 + digits ≤ length out.old }
    ensures stored { out.new ≡ sets out.old 0 (head_line n) }
{
    out[0] = b'c';
    out[1] = b'e';
    out[2] = b'l';
    out[3] = b'l';
    out[4] = b's';
    out[5] = b'=';
    put_decimal(out, 6, n);
    out[6 + digits] = b'\n';
}

// Each kind of line has a loop of its own, so that no turn asks which kind its cell is. This one begins at a cell that it is told and counts
// down the lines, and so ends with the last marked cell: a state has few marked cells more often than all. The cells of the other are few,
// and it is quicker as it stands.
fn put_lines_3d(
    pairs: &[u8; 512],
    state: &[u8],
    out: &mut [u8],
    start: usize,
    first: usize,
    count: usize,
)
    requires table { pairs.now ≡ digit_pairs }
    requires whole { length (words_of state.now) ≡ state_words }
    requires count { count ≡ count_in (marked (words_of state.now)) first (first_video - first) }
    requires room { start + 26 * count_in (marked (words_of state.now)) first (first_video - first) ≤ length out.old }
    ensures stored { out.new ≡ sets out.old start (join (lines_from cell_line_3d (words_of state.now) first (first_video - first))) }
{
    let mut left = count;
    let mut at = start;
    let mut c = first;
    while 0 < left {
        if states::mark(state, Cell(c)) != 0 {
            lines::put_line_3d(pairs, out, at, Cell(c), states::value(state, Cell(c)));
            at += 26;
            left -= 1;
        }
        c += 1;
    }
}

fn put_lines_video(pairs: &[u8; 512], state: &[u8], out: &mut [u8], start: usize)
    requires table { pairs.now ≡ digit_pairs }
    requires whole { length (words_of state.now) ≡ state_words }
    requires room { start + 22 * count_in (marked (words_of state.now)) first_video (end_video - first_video) ≤ length out.old }
    ensures stored { out.new ≡ sets out.old start (join (lines_from cell_line_video (words_of state.now) first_video (end_video - first_video))) }
{
    let mut at = start;
    for c in FIRST_VIDEO..END_VIDEO {
        if states::mark(state, Cell(c)) != 0 {
            lines::put_line_video(pairs, out, at, Cell(c), states::value(state, Cell(c)));
            at += 22;
        }
    }
}

// Lists the marked cells of a state, and tells the bytes written: refused if the state is not well-formed, and if the output is too short.
pub fn list(state: &[u8], out: &mut [u8]) -> Answer
    ensures answer { answer_in result ≡ list_answer (words_of state.now) (length out.old) }
    ensures bytes { out.new ≡ list_leaves (words_of state.now) out.old }
{
    if !states::well_formed(state) {
        return Err(Reason::BadState.at(0));
    }
    let in_3d = states::marked_between(state, 0, FIRST_VIDEO);
    let in_video = states::marked_between(state, FIRST_VIDEO, END_VIDEO);
    let digits = decimal_length(in_3d + in_video);
    let first_line = 7 + digits;
    let first_video = first_line + 26 * in_3d;
    let need = first_video + 22 * in_video;
    if out.len() < need {
        return Err(Reason::NoRoom.at(0));
    }
    let pairs = DIGIT_PAIRS;
    put_head(out, in_3d + in_video, digits);
    put_lines_3d(&pairs, state, out, first_line, 0, in_3d);
    put_lines_video(&pairs, state, out, first_video);
    Ok(need)
}
