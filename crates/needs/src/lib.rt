// How many words the batch of a state takes.
#![tactic(auto)]

ghost use Rattle.std.specs.Prelude.{◌≡◌, ◌+◌, ◌*◌, ◌≤◌, length};
ghost use Rattle.meaning.specs.Words.{words_of};
ghost use Rattle.meaning.specs.Registers.{cells, sections_3d};
ghost use Rattle.meaning.specs.State.{state_words, marked, count_in};
ghost use Rattle.meaning.specs.Writer.{packet_need, need_among, need_for};
ghost use Rattle.needs.specs.Series.{series_need};

use meaning::{END_VIDEO, FIRST_VIDEO};

// How many words a group takes: header and setting come with its first parameter.
fn group_need(state: &[u8], first: usize, rows: usize) -> usize
    requires whole { length (words_of state.now) ≡ state_words }
    requires inside { first + rows ≤ cells }
    ensures need { result ≡ packet_need (count_in (marked (words_of state.now)) first rows) }
{
    let n = states::marked_between(state, first, first + rows);
    if n == 0 {
        return 0;
    }
    n + 2
}

// The same for groups of equal size that follow one another. Each caller's sizes are literals, so that its loop is unrolled.
fn series_need(state: &[u8], first: usize, rows: usize, count: usize) -> usize
    requires whole { length (words_of state.now) ≡ state_words }
    requires inside { first + rows * count ≤ cells }
    requires few { count ≤ cells }
    ensures need { result ≡ series_need (marked (words_of state.now)) first rows 0 count }
{
    let mut need: usize = 0;
    for n in 0..count {
        need += group_need(state, first + rows * n, rows);
    }
    need
}

// The words of the packets before the video packets, and of all.
#[derive(Clone, Copy)]
pub struct Need {
    pub before_video: usize,
    pub in_all: usize,
}

// How many words the batch of a state takes.
pub fn needed(state: &[u8]) -> Need
    requires whole { length (words_of state.now) ≡ state_words }
    ensures before_video { result.before_video ≡ need_among (marked (words_of state.now)) sections_3d }
    ensures in_all { result.in_all ≡ need_for (marked (words_of state.now)) }
{
    let target = series_need(state, 0, 4, 1);
    let stages = series_need(state, 4, 2, 16);
    let samples = series_need(state, 36, 3, 16);
    let video = 2 * states::marked_between(state, FIRST_VIDEO, END_VIDEO);
    let before_video = target + stages + samples;
    Need {
        before_video,
        in_all: before_video + video,
    }
}
