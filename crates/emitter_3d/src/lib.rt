// The words of the 3D groups of a state, in cell order.
#![tactic(auto)]

ghost use Rattle.std.specs.Prelude.{◌≡◌, ◌+◌, ◌*◌, ◌/◌, ◌<◌, ◌≤◌, ◌^◌, length};
ghost use Rattle.meaning.specs.Words.{words_of};
ghost use Rattle.meaning.specs.Registers.{cells, first_video, sections_3d};
ghost use Rattle.meaning.specs.State.{state_words, value_at, mark_at};
ghost use Rattle.words.specs.Stores.{put_words};
ghost use Rattle.emitter_3d.specs.Emitted.{parameter_of, parameters_from, target_words, series_from, many, words_of_sections, Room, Narrow};
ghost use Rattle.emitter_3d.specs.Closed.{closed_end, closed_words};

use meaning::{Cell, SubAddress};

// The parameter of a cell, if it is marked. The answer is the place after it; the same below for more than one word.
fn emit_parameter(state: &[u8], cell: Cell, address: SubAddress, out: &mut [u8], at: usize) -> usize
    requires whole { length (words_of state.now) ≡ state_words }
    requires inside { cell.0 < cells }
    requires short { address.0 < 256 }
    requires narrow { 0 < mark_at (words_of state.now) cell → value_at (words_of state.now) cell < 2 ^ 24 }
    requires room { Room out.old at (parameter_of (words_of state.now) cell address) }
    ensures end { result ≡ at + length (parameter_of (words_of state.now) cell address) }
    ensures words { out.new ≡ put_words out.old at (parameter_of (words_of state.now) cell address) }
{
    if states::mark(state, cell) == 0 {
        return at;
    }
    words::put_word(out, at, address.0 * 0x1000000 + states::value(state, cell));
    at + 1
}

// The parameters of rows that follow one another, in cells and in sub-addresses.
fn emit_rows(
    state: &[u8],
    first: Cell,
    low: SubAddress,
    rows: usize,
    out: &mut [u8],
    at: usize,
) -> usize
    requires whole { length (words_of state.now) ≡ state_words }
    requires narrow { Narrow (words_of state.now) }
    requires inside { first.0 + rows ≤ first_video }
    requires short { low.0 + rows ≤ 256 }
    requires room { Room out.old at (parameters_from (words_of state.now) first.0 low.0 rows) }
    ensures end { result ≡ at + length (parameters_from (words_of state.now) first.0 low.0 rows) }
    ensures words { out.new ≡ put_words out.old at (parameters_from (words_of state.now) first.0 low.0 rows) }
{
    let cell = first.0;
    let address = low.0;
    let mut end = at;
    let mut k = 0;
    while k < rows {
        end = emit_parameter(
            state,
            Cell(cell + k),
            SubAddress(address + k as u32),
            out,
            end,
        );
        k += 1;
    }
    end
}

// Header and setting of the packet at a place, once its parameters stand behind them: only then is their number known.
fn close_packet(out: &mut [u8], at: usize, end: usize, ty: u32, sub: u32) -> usize
    requires order { at + 2 ≤ end }
    requires few { end ≤ at + 6 }
    requires ty { ty < 256 }
    requires sub { sub < 256 }
    requires room { (end ≡ at + 2 → ⊥) → end ≤ length out.old / 4 }
    ensures end { result ≡ closed_end at end }
    ensures words { out.new ≡ closed_words out.old at end ty sub }
{
    if end == at + 2 {
        return at;
    }
    words::put_word(out, at, (end - at - 1) as u32 * 0x10000 + 0x043c);
    words::put_word(out, at + 1, sub * 0x1000000 + ty * 0x10000);
    end
}

// 01.00, if one of its cells is marked. The sub-address of its first row stands apart.
fn emit_target(state: &[u8], out: &mut [u8]) -> usize
    requires whole { length (words_of state.now) ≡ state_words }
    requires narrow { Narrow (words_of state.now) }
    requires room { length (target_words (words_of state.now)) ≤ length out.old / 4 }
    ensures end { result ≡ length (target_words (words_of state.now)) }
    ensures words { out.new ≡ put_words out.old 0 (target_words (words_of state.now)) }
{
    let second = emit_parameter(state, Cell(0), SubAddress(0x3f), out, 2);
    let end = emit_rows(state, Cell(1), SubAddress(0x50), 3, out, second);
    close_packet(out, 0, end, 0x01, 0x00)
}

// The sixteen groups of 02 that have so many rows each: the first begins at cell `first`, their sub-types at `sub`, their sub-addresses at
// `low`. The loop stops where the last packet of all groups ends: a state has few marked cells more often than all. Each caller's sizes are
// literals, so that the loop is compiled for them.
fn emit_series(
    state: &[u8],
    first: usize,
    rows: usize,
    low: SubAddress,
    sub: u32,
    out: &mut [u8],
    start: usize,
    end: usize,
) -> usize
    requires whole { length (words_of state.now) ≡ state_words }
    requires narrow { Narrow (words_of state.now) }
    requires inside { first + rows * many ≤ first_video }
    requires few { rows ≤ 4 }
    requires short { low.0 + rows ≤ 256 }
    requires sub { sub + many ≤ 256 }
    requires end { start + length (series_from (words_of state.now) first rows low.0 sub 0 many) ≤ end }
    requires room { end ≤ length out.old / 4 }
    ensures end { result ≡ start + length (series_from (words_of state.now) first rows low.0 sub 0 many) }
    ensures words { out.new ≡ put_words out.old start (series_from (words_of state.now) first rows low.0 sub 0 many) }
{
    let mut at = start;
    let mut n = 0;
    while n < 16 {
        if at == end {
            return at;
        }
        let last = emit_rows(state, Cell(first + rows * n), low, rows, out, at + 2);
        at = close_packet(out, at, last, 0x02, sub + n as u32);
        n += 1;
    }
    at
}

// The packets of all groups before the video cells, which end at `end`.
pub fn emit_3d(state: &[u8], out: &mut [u8], end: usize)
    requires whole { length (words_of state.now) ≡ state_words }
    requires narrow { Narrow (words_of state.now) }
    requires end { end ≡ length (words_of_sections (words_of state.now) sections_3d) }
    requires room { end ≤ length out.old / 4 }
    ensures words { out.new ≡ put_words out.old 0 (words_of_sections (words_of state.now) sections_3d) }
{
    let stages = emit_target(state, out);
    let samples = emit_series(state, 4, 2, SubAddress(0x50), 0x00, out, stages, end);
    emit_series(state, 36, 3, SubAddress(0x30), 0x20, out, samples, end);
}
