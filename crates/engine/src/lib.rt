// The engine: a batch word by word. It is a struct by value: opened with a state and grants, fed a word at a time, closed. After opening
// and after each word, its `reason` and `place` are the answer.
#![tactic(auto)]

ghost use Rattle.std.specs.Prelude.{◌≡◌, cond, ◌++◌, ◌≤◌, ◌<◌, ◌%◌, length, take};
ghost use Rattle.meaning.specs.Words.{words_of};
ghost use Rattle.meaning.specs.Registers.{cells};
ghost use Rattle.meaning.specs.Grants.{Terms};
ghost use Rattle.meaning.specs.State.{state_words, is_mark};
ghost use Rattle.meaning.specs.Answers.{answer, number};
ghost use Rattle.pair.specs.Marks.{outside, cleared, restored};
ghost use Rattle.pair.specs.Judged.{kept_by};
ghost use Rattle.grants.specs.Kept.{Keeps};
ghost use Rattle.asking.specs.Asked.{capped};
ghost use Rattle.feeding.specs.Steps.{closes, leaves};
ghost use Rattle.engine.specs.Bits.{bit_of, marks_of, with_mark, packed};
ghost use Rattle.engine.specs.Kept.{opening_reason, byte_bounds, blank, opened_with, fed_with, closing_reason, reason_behind, handed, opening, standing, pair_judged, behind};

use asking::{ByteBounds, Stored};
use grants::{BOUNDS, Bounds, Numbers, RoleGrants, Spans};
use meaning::{
    CELLS, Cell, LOCATION_CELL, MOST_FED, MOST_GRANTS, Reason, STATE_WORDS, State, TARGET_CELL,
};

// The values of the cells, and their marks, a bit each.
pub type Values = [u32; CELLS];

pub type Marks = [u32; MARK_WORDS];

pub const MARK_WORDS: usize = 4;

const MARKS_IN_WORD: usize = 32;

// What is kept between words: the answer that stands, which is 0 at the number of words fed as long as none is refused; the position in the
// packet (asking::Taken says how); the cells with all that the words fed write; the cells as they were at opening; and the grants, as
// the reader keeps them. All of it is copied with each word, so it is no larger than it must be.
#[derive(Clone, Copy)]
pub struct Engine {
    pub reason: u32,
    pub place: u32,
    pub left: u32,
    pub under: u32,
    pub marks: Marks,
    pub marked: Marks,
    pub values: Values,
    pub before: Values,
    pub starts: Spans,
    pub lasts: Spans,
    pub numbers: Numbers,
    pub bounds: ByteBounds,
}

// The answer at closing, and the state that is handed back.
#[derive(Clone, Copy)]
pub struct Closed {
    pub reason: u32,
    pub place: usize,
    pub state: State,
}

// Sets the mark of a cell.
fn set_mark(marks: &mut Marks, cell: usize)
    requires inside { cell < cells }
    ensures marked { marks.new ≡ with_mark marks.old cell }
{
    let i = cell / MARKS_IN_WORD;
    marks[i] |= 1u32 << cell % MARKS_IN_WORD;
}

// Sets the mark of a cell that a state marks.
fn load_mark(marks: &mut Marks, cell: usize, mark: u32)
    requires inside { cell < cells }
    ensures marked { marks.new ≡ cond (is_mark mark) (with_mark marks.old cell) marks.old }
{
    if mark == 0 {
        return;
    }
    set_mark(marks, cell);
}

// The mark of a cell, and 0 if it is one of the pair.
fn outside_pair(cell: Cell, mark: u32) -> u32
    ensures mark { result ≡ outside cell.0 mark }
{
    if cell.0 == TARGET_CELL {
        return 0;
    }
    if cell.0 == LOCATION_CELL {
        return 0;
    }
    mark
}

// The values of a state, its marks as bits, and the same without those of the pair, which come back as they are written.
fn load(state: &[u8], values: &mut Values, marked: &mut Marks, marks: &mut Marks)
    requires whole { length (words_of state.now) ≡ state_words }
    requires array { length values.old ≡ cells }
    ensures values { values.new ≡ take cells (words_of state.now) }
    ensures marked { marked.new ≡ packed (words_of state.now) cells marked.old }
    ensures marks { marks.new ≡ packed (cleared (words_of state.now)) cells marks.old }
{
    for c in 0..CELLS {
        values[c] = states::value(state, Cell(c));
        let mark = states::mark(state, Cell(c));
        load_mark(marked, c, mark);
        load_mark(marks, c, outside_pair(Cell(c), mark));
    }
}

// Bounds as bytes.
fn byte_bounds(bounds: &Bounds) -> ByteBounds
    ensures bytes { result ≡ byte_bounds bounds.now }
{
    [
        (bounds[0] % 256) as u8,
        (bounds[1] % 256) as u8,
        (bounds[2] % 256) as u8,
        (bounds[3] % 256) as u8,
        (bounds[4] % 256) as u8,
        (bounds[5] % 256) as u8,
        (bounds[6] % 256) as u8,
        (bounds[7] % 256) as u8,
    ]
}

// An engine that is refused at opening.
fn refused(reason: u32) -> Engine
    ensures blank { result ≡ blank reason }
{
    Engine {
        reason,
        place: 0,
        left: 0,
        under: 0,
        marks: [0u32; MARK_WORDS],
        marked: [0u32; MARK_WORDS],
        values: [0u32; CELLS],
        before: [0u32; CELLS],
        starts: [0u32; MOST_GRANTS],
        lasts: [0u32; MOST_GRANTS],
        numbers: [0u8; MOST_GRANTS],
        bounds: [0u8; BOUNDS],
    }
}

// The number of a reason.
fn number(reason: Reason) -> u32
    ensures number { result ≡ number reason }
{
    reason as u32
}

// 1 before 2.
fn opening_reason(formed: bool, fine: bool) -> u32
    ensures reason { result ≡ opening_reason formed fine }
{
    if !formed {
        return Reason::BadState as u32;
    }
    if !fine {
        return Reason::BadGrants as u32;
    }
    0
}

// Opens an engine with copies of a state and of grants: 1 if the state is not well-formed, 2 if the grant list breaks its rules, else 0 at 0.
// Bytes past the last whole word of a buffer count for nothing.
pub fn open(state: &[u8], grants: &[u8]) -> Engine
    ensures opened { result ≡ opened_with (words_of state.now) (words_of grants.now) }
{
    let mut starts = [0u32; MOST_GRANTS];
    let mut lasts = [0u32; MOST_GRANTS];
    let mut numbers = [0u8; MOST_GRANTS];
    let mut bounds = [0usize; BOUNDS];
    let formed = states::well_formed(state);
    let fine = keeping::begin(grants, &mut bounds);
    let reason = opening_reason(formed, fine);
    if reason != 0 {
        return refused(reason);
    }
    keeping::place(grants, &mut starts, &mut lasts, &mut numbers, &mut bounds);
    let mut values = [0u32; CELLS];
    let mut marked = [0u32; MARK_WORDS];
    let mut marks = [0u32; MARK_WORDS];
    load(state, &mut values, &mut marked, &mut marks);
    let bytes = byte_bounds(&bounds);
    Engine {
        reason: 0,
        place: 0,
        left: 0,
        under: 0,
        marks,
        marked,
        values,
        before: values,
        starts,
        lasts,
        numbers,
        bounds: bytes,
    }
}

// Feeds a word: 0 at the number fed, or the refusal that stands from then on. The engine is changed in one function and by nothing else, so
// that it is copied twice a word and not more often: in, and out.
pub fn feed(mut engine: Engine, word: u32) -> Engine
    ensures fed { (g : Terms) → Keeps g engine.starts engine.lasts (capped engine.bounds) → result ≡ fed_with g engine word }
{
    if engine.reason != 0 {
        return engine;
    }
    if MOST_FED <= engine.place {
        engine.reason = Reason::EngineFull as u32;
        return engine;
    }
    let stored = Stored {
        starts: &engine.starts,
        lasts: &engine.lasts,
        numbers: &engine.numbers,
        bounds: &engine.bounds,
    };
    let taken = match asking::ask(engine.left, engine.under, word, &stored) {
        Ok(taken) => taken,
        Err(reason) => {
            engine.reason = number(reason);
            return engine;
        }
    };
    engine.place += 1;
    engine.left = taken.left;
    engine.under = taken.under;
    let cell = taken.cell.0;
    if CELLS <= cell {
        return engine;
    }
    engine.values[cell] = taken.value;
    set_mark(&mut engine.marks, cell);
    engine
}

// The mark of a cell.
fn mark_in(marks: &Marks, cell: usize) -> u32
    requires inside { cell < cells }
    ensures mark { result ≡ bit_of marks.now cell }
{
    (marks[cell / MARKS_IN_WORD] >> cell % MARKS_IN_WORD) % 2
}

// A state out of values and marks.
fn lay<'a>(values: &'a Values, marks: &'a Marks, state: &mut State)
    requires array { length state.old ≡ state_words }
    ensures laid { state.new ≡ values.now ++ marks_of marks.now }
    ensures size { length state.new ≡ state_words }
{
    // A slice tells how long it is, which a reference to an array does not.
    let all = &values[..];
    for c in 0..CELLS {
        state[c] = all[c];
        state[CELLS + c] = mark_in(marks, c);
    }
}

// The refusal that stands, or 10 where the open packet wants more words.
fn closing_reason(reason: u32, left: u32) -> u32
    ensures reason { result ≡ closing_reason reason left }
{
    if reason != 0 {
        return reason;
    }
    if left != 0 {
        return Reason::EndsInside as u32;
    }
    0
}

// Lays out the state that closing hands back, and tells what it answers, by the reason and the position that stand: with what the words write,
// if they end a packet and their pair is kept; else as it was at opening.
fn hand_back<'a>(
    reason: u32,
    left: u32,
    values: &'a Values,
    before: &'a Values,
    marks: &'a Marks,
    marked: &'a Marks,
    part: &RoleGrants<'a>,
    state: &mut State,
) -> u32
    requires array { length state.old ≡ state_words }
    ensures reason { result ≡ reason_behind (closing_reason reason left) (kept_by part.now (bit_of marked.now 1) (bit_of marked.now 2) (values.now ++ marks_of marks.now)) }
    ensures state { state.new ≡ handed result (restored (bit_of marked.now 1) (bit_of marked.now 2) (values.now ++ marks_of marks.now)) (before.now ++ marks_of marked.now) }
{
    let ended = closing_reason(reason, left);
    if ended != 0 {
        lay(before, marked, state);
        return ended;
    }
    lay(values, marks, state);
    let target = mark_in(marked, TARGET_CELL);
    let location = mark_in(marked, LOCATION_CELL);
    if !pair::kept(target, location, state, part, false) {
        lay(before, marked, state);
        return Reason::BadPair as u32;
    }
    0
}

// Closes an engine: the reader's answer on the words fed, or the refusal that stands; and the state, changed only if all is accepted.
pub fn close(engine: Engine) -> Closed
    ensures answer { answer result.reason result.place ≡ closes (pair_judged engine) (standing engine) }
    ensures state { result.state ≡ leaves (pair_judged engine) (standing engine) (behind engine) (opening engine) }
{
    let mut state = [0u32; STATE_WORDS];
    let place = engine.place as usize;
    let stored = Stored {
        starts: &engine.starts,
        lasts: &engine.lasts,
        numbers: &engine.numbers,
        bounds: &engine.bounds,
    };
    let part = stored.part_of(1);
    let reason = hand_back(
        engine.reason,
        engine.left,
        &engine.values,
        &engine.before,
        &engine.marks,
        &engine.marked,
        &part,
        &mut state,
    );
    Closed {
        reason,
        place,
        state,
    }
}
