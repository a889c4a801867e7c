// The listing reader: a listing back to its state. The text is read once, into a state of its own, which takes the place of the lent one only
// if the whole text is a listing. Only where a line does not fit are all lines tried that may stand there, for the place.
#![tactic(auto)]

ghost use Rattle.std.specs.Prelude.{◌≡◌, ◌≤◌, length, drop, IfOk, IfErr};
ghost use Rattle.laws.specs.Lists.{over};
ghost use Rattle.meaning.specs.Words.{words_of, bytes_of};
ghost use Rattle.meaning.specs.Registers.{cells};
ghost use Rattle.meaning.specs.State.{state_words, apply_all};
ghost use Rattle.meaning.specs.Answers.{answer_in, settle};
ghost use Rattle.meaning.specs.ListingReader.{along, form_of, head_form, table_lines, refused, further, read_lines, read_first, listing_answer, listing_leaves};
ghost use Rattle.listings.specs.Lines.{line_for};
ghost use Rattle.line_reader.specs.Named.{digit_table};
ghost use Rattle.listing_reader.specs.Counted.{decimal_digit, Counted};

use meaning::{Answer, CELLS, FIRST_VIDEO, Reason, STATE_WORDS, State};

// What each byte counts as a hex digit; 16 if it is none. A constant is copied wherever it is used, so `read_listing` makes one copy and lends
// it.
const DIGITS: [u8; 256] = *b"\
    \x10\x10\x10\x10\x10\x10\x10\x10\x10\x10\x10\x10\x10\x10\x10\x10\
    \x10\x10\x10\x10\x10\x10\x10\x10\x10\x10\x10\x10\x10\x10\x10\x10\
    \x10\x10\x10\x10\x10\x10\x10\x10\x10\x10\x10\x10\x10\x10\x10\x10\
    \x00\x01\x02\x03\x04\x05\x06\x07\x08\x09\x10\x10\x10\x10\x10\x10\
    \x10\x10\x10\x10\x10\x10\x10\x10\x10\x10\x10\x10\x10\x10\x10\x10\
    \x10\x10\x10\x10\x10\x10\x10\x10\x10\x10\x10\x10\x10\x10\x10\x10\
    \x10\x0a\x0b\x0c\x0d\x0e\x0f\x10\x10\x10\x10\x10\x10\x10\x10\x10\
    \x10\x10\x10\x10\x10\x10\x10\x10\x10\x10\x10\x10\x10\x10\x10\x10\
    \x10\x10\x10\x10\x10\x10\x10\x10\x10\x10\x10\x10\x10\x10\x10\x10\
    \x10\x10\x10\x10\x10\x10\x10\x10\x10\x10\x10\x10\x10\x10\x10\x10\
    \x10\x10\x10\x10\x10\x10\x10\x10\x10\x10\x10\x10\x10\x10\x10\x10\
    \x10\x10\x10\x10\x10\x10\x10\x10\x10\x10\x10\x10\x10\x10\x10\x10\
    \x10\x10\x10\x10\x10\x10\x10\x10\x10\x10\x10\x10\x10\x10\x10\x10\
    \x10\x10\x10\x10\x10\x10\x10\x10\x10\x10\x10\x10\x10\x10\x10\x10\
    \x10\x10\x10\x10\x10\x10\x10\x10\x10\x10\x10\x10\x10\x10\x10\x10\
    \x10\x10\x10\x10\x10\x10\x10\x10\x10\x10\x10\x10\x10\x10\x10\x10\
    ";

// The bytes of a cell's line.
fn width(c: usize) -> usize
    ensures width { result ≡ length (form_of (line_for c)) }
{
    if c < FIRST_VIDEO {
        return 26;
    }
    22
}

// The lines from `start` on, of which n are wanted, into an empty state. A line that leaves too few cells for those still wanted is none.
fn read_lines(digits: &[u8; 256], text: &[u8], start: usize, n: usize, state: &mut State) -> Answer
    requires table { digits.now ≡ digit_table }
    requires inside { start ≤ length text.now }
    requires few { n ≤ cells }
    requires array { length state.old ≡ state_words }
    ensures answer { answer_in result ≡ (further start (read_lines table_lines n (drop start text.now))).answer }
    ensures state { state.new ≡ apply_all state.old (read_lines table_lines n (drop start text.now)).writes }
{
    let mut at = start;
    let mut c = 0;
    for i in 0..n {
        let end = CELLS + 1 - (n - i);
        let Some(line) = line_reader::read_line(digits, text, at, c, end) else {
            return Err(Reason::NotAListing.at(at + line_places::furthest(text, at, c, end)));
        };
        let found = line.cell;
        at += width(found);
        c = found + 1;
        state[found] = line.value;
        state[CELLS + found] = 1;
    }
    if at != text.len() {
        return Err(Reason::NotAListing.at(at));
    }
    Ok(at)
}

// What a decimal digit counts.
#[tactic(auto, using(laws::proofs::Arms::spans), unfolding(crate::specs::Counted::decimal_digit))]
fn decimal_of(x: u8) -> Option<usize>
    ensures digit { result ≡ decimal_digit x }
{
    match x {
        b'0'..=b'9' => Some(x as usize - 48),
        _ => None,
    }
}

// The count, and where its line ends.
#[derive(Clone, Copy)]
struct Head {
    at: usize,
    count: usize,
}

// The count from `start` on, and the end of its line; or the byte that shows that there is none.
fn read_count(text: &[u8], start: usize) -> Result<Head, usize>
    requires inside { start ≤ length text.now }
    ensures count { IfOk result (λ head. Counted text.now start head.at head.count) }
    ensures none { IfErr result (λ at. further start (read_first (drop start text.now)) ≡ refused at) }
{
    if text.len() <= start {
        return Err(start);
    }
    let Some(first) = decimal_of(text[start]) else {
        return Err(start);
    };
    let mut count = first;
    for at in start + 1..text.len() {
        let x = text[at];
        if x == b'\n' {
            return Ok(Head { at: at + 1, count });
        }
        let Some(d) = decimal_of(x) else {
            return Err(at);
        };
        if count == 0 || CELLS < count * 10 + d {
            return Err(at);
        }
        count = count * 10 + d;
    }
    Err(text.len())
}

// How many bytes from the front on are those of the first line's key.
fn key_bytes(text: &[u8]) -> usize
    ensures bytes { result ≡ along head_form text.now }
{
    let key = *b"cells=";
    for i in 0..6 {
        if text.len() <= i || text[i] != key[i] {
            return i;
        }
    }
    6
}

// Reads a listing back, and tells the text's length: refused if the buffer of the state is not as long as a state, and at the first byte that
// begins no listing, or at the text's length if it is cut short. What the buffer held does not matter, and a refusal leaves it; bytes past its
// last whole word stay.
pub fn read_listing(text: &[u8], state: &mut [u8]) -> Answer
    ensures answer { answer_in result ≡ listing_answer text.now (words_of state.old) }
    ensures bytes { state.new ≡ settle (answer_in result) (over (bytes_of (listing_leaves text.now (words_of state.old))) state.old) state.old }
{
    if state.len() / 4 != STATE_WORDS {
        return Err(Reason::BadState.at(0));
    }
    let agreed = key_bytes(text);
    if agreed < 6 {
        return Err(Reason::NotAListing.at(agreed));
    }
    let head = read_count(text, 6).map_err(|at| Reason::NotAListing.at(at))?;
    let digits = DIGITS;
    let mut own = [0u32; STATE_WORDS];
    let read = read_lines(&digits, text, head.at, head.count, &mut own);
    let place = read?;
    states::store(&own, state);
    Ok(place)
}
