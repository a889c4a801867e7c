// The words of the batch that reaches a state: those of its 3D groups, then those of its video cells.
#![tactic(auto)]

ghost use Rattle.std.specs.Prelude.{◌≡◌, ◌+◌, ◌/◌, ◌<◌, ◌≤◌, length};
ghost use Rattle.laws.specs.Lists.{over};
ghost use Rattle.meaning.specs.Words.{words_of, bytes_of};
ghost use Rattle.meaning.specs.Registers.{first_video, end_video, sections_3d, sections_video};
ghost use Rattle.meaning.specs.State.{state_words, marked};
ghost use Rattle.meaning.specs.Writer.{written, need_among};
ghost use Rattle.words.specs.Stores.{put_words};
ghost use Rattle.emitter_3d.specs.Emitted.{words_of_sections, Narrow};
ghost use Rattle.emitter.specs.Videos.{video_words};

use meaning::{Cell, END_VIDEO, FIRST_VIDEO};

// The packet of a video cell, if it is marked. The answer is the place after it.
fn emit_video_cell(state: &[u8], cell: Cell, out: &mut [u8], at: usize) -> usize
    requires whole { length (words_of state.now) ≡ state_words }
    requires low { first_video ≤ cell.0 }
    requires high { cell.0 < end_video }
    requires room { at + length (video_words (words_of state.now) cell.0) ≤ length out.old / 4 }
    ensures end { result ≡ at + length (video_words (words_of state.now) cell.0) }
    ensures words { out.new ≡ put_words out.old at (video_words (words_of state.now) cell.0) }
{
    if states::mark(state, cell) == 0 {
        return at;
    }
    let offset = registers::offset_of(cell);
    words::put_word(out, at, 0x10000 + offset.0);
    words::put_word(out, at + 1, states::value(state, cell));
    at + 2
}

// The packets of all video cells.
fn emit_video(state: &[u8], out: &mut [u8], at: usize)
    requires whole { length (words_of state.now) ≡ state_words }
    requires room { at + length (words_of_sections (words_of state.now) sections_video) ≤ length out.old / 4 }
    ensures words { out.new ≡ put_words out.old at (words_of_sections (words_of state.now) sections_video) }
{
    let mut end = at;
    let mut c = FIRST_VIDEO;
    while c < END_VIDEO {
        end = emit_video_cell(state, Cell(c), out, end);
        c += 1;
    }
}

// The batch of a state, over the front of the output, once it is known how many of its words come before the video packets.
pub fn emit(state: &[u8], out: &mut [u8], before_video: usize)
    requires whole { length (words_of state.now) ≡ state_words }
    requires narrow { Narrow (words_of state.now) }
    requires room { length (written (words_of state.now)) ≤ length out.old / 4 }
    requires before_video { before_video ≡ need_among (marked (words_of state.now)) sections_3d }
    ensures words { out.new ≡ over (bytes_of (written (words_of state.now))) out.old }
{
    emitter_3d::emit_3d(state, out, before_video);
    emit_video(state, out, before_video);
}
