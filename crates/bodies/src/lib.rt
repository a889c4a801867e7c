// The words of one packet's body, from place `first` to before `end`: each is judged and, where nothing speaks against it, stored. The
// callers lend a state of their own, so that a refusal leaves nothing half done where it matters. Parameters, and the words of each kind of
// video row, go through one loop, which is compiled for each of them.
#![tactic(auto)]

ghost use Rattle.std.specs.Prelude.{◌≡◌, ℕ, ◌+◌, ◌-◌, ◌<◌, ◌≤◌, get_or, ◌^◌};
ghost use Rattle.std.proofs.Math.Seq.{slice};
ghost use Rattle.meaning.specs.declared.Kind.{Kind};
ghost use Rattle.meaning.specs.declared.Kind.TheVariants as kinds;
ghost use Rattle.meaning.specs.Words.{words_of};
ghost use Rattle.meaning.specs.Registers.{cells, first_video, cell};
ghost use Rattle.meaning.specs.Grants.{Terms};
ghost use Rattle.meaning.specs.State as state_of;
ghost use Rattle.meaning.specs.Answers.{answer_in};
ghost use Rattle.registers.specs.Names.{offset_of};
ghost use Rattle.grants.specs.Held.{IsRole};
ghost use Rattle.rows_video.specs.Scalers.{Scaler, IsScaler};
ghost use Rattle.headers.specs.Told.{IsGroup, Leads};
ghost use Rattle.bodies.specs.declared.Asked.{Asked};
ghost use Rattle.bodies.specs.Passes.{answer_of, body_from, Comes, Places};
ghost use Rattle.bodies.specs.Told.{Stands, Judges};

use grants::RoleGrants;
use headers::Group;
use meaning::{Answer, CELLS, Cell, FIRST_VIDEO, Reason, State};

// What is told of a word: what speaks against it, if anything does, and the value that it puts into a cell where nothing does. Kept: the
// verdict stands beside the two, and not around them, which is quicker.
#[derive(Clone, Copy)]
struct Asked {
    verdict: Result<(), Reason>,
    cell: Cell,
    value: u32,
}

// A write sets the cell's value and marks it.
#[tactic(auto, unfolding(meaning::specs::State::apply))]
fn store(state: &mut State, cell: Cell, value: u32)
    requires inside { cell.0 < cells }
    ensures applied { state.new ≡ state_of.apply state.old (record { cell = cell; value = value }) }
{
    let c = cell.0;
    state[c] = value;
    state[CELLS + c] = 1;
}

// The words of a body, which `ask` is handed one after another, each with its number, from `index` on. A closure that owns what it looks at
// is quicker than one that borrows it.
fn take<F: Fn(usize, u32) -> Asked>(
    batch: &[u8],
    first: usize,
    end: usize,
    index: usize,
    ask: F,
    state: &mut State,
) -> Answer
    requires places { Places first end batch.now }
    requires few { index + (end - first) < 2 ^ 64 }
    requires callable { (k at : ℕ) → Stands index first end k at → F.pre ask k (get_or (words_of batch.now) at 0) }
    requires inside { (k at : ℕ) (asked : Asked) → Stands index first end k at → F.post ask k (get_or (words_of batch.now) at 0) asked → asked.cell.0 < cells }
    ensures read { (g : Terms) (kind : ℕ → Kind) → Judges (F.post ask) g kind index first end (words_of batch.now) → Comes (answer_in result) state.new (body_from g first (kind index) (slice first end (words_of batch.now)) state.old) }
{
    for (k, at) in (index..).zip(first..end) {
        let asked = ask(k, words::word(batch, at));
        asked.verdict.map_err(|reason| reason.at(at))?;
        store(state, asked.cell, asked.value);
    }
    Ok(end)
}

// Parameters of a group.
#[tactic(auto, using(meaning::proofs::EachWrite::data_small))]
pub fn take_parameters(
    batch: &[u8],
    first: usize,
    end: usize,
    group: Group,
    part: &RoleGrants<'_>,
    state: &mut State,
) -> Answer
    requires places { Places first end batch.now }
    requires group { IsGroup group }
    ensures answer { (g : Terms) (s : ℕ) → Leads s group → IsRole g 1 part.now → answer_in result ≡ answer_of (body_from g first (kinds.Parameter s) (slice first end (words_of batch.now)) state.old) }
    ensures state { (g : Terms) (s : ℕ) → Leads s group → IsRole g 1 part.now → state.new ≡ (body_from g first (kinds.Parameter s) (slice first end (words_of batch.now)) state.old).state }
{
    let ask = move |_: usize, w: u32|
        requires { IsGroup group }
    {
        let value = fields::data(w);
        let judged = judging::judge_parameter(group, fields::sub_address(w), value, part);
        Asked {
            verdict: judged.verdict,
            cell: judged.cell,
            value,
        }
    };
    take(batch, first, end, 0, ask, state)
}

// A run of words for 2208 to 2210, from register number `index` of them on.
pub fn take_overlay(
    batch: &[u8],
    first: usize,
    end: usize,
    index: usize,
    state: &mut State,
) -> Answer
    requires places { Places first end batch.now }
    requires row { index + (end - first) ≤ 3 }
    ensures answer { (g : Terms) → answer_in result ≡ answer_of (body_from g first (kinds.Video (offset_of (cell (first_video + index)))) (slice first end (words_of batch.now)) state.old) }
    ensures state { (g : Terms) → state.new ≡ (body_from g first (kinds.Video (offset_of (cell (first_video + index)))) (slice first end (words_of batch.now)) state.old).state }
{
    let ask = move |k: usize, w: u32| Asked {
        verdict: judging::overlay_reason(k, w),
        cell: Cell(FIRST_VIDEO + k),
        value: w,
    };
    take(batch, first, end, index, ask, state)
}

// The same for a scaler: `base` is the cell of its first register, and `part` are the grants of its addresses.
pub fn take_scaler(
    batch: &[u8],
    first: usize,
    end: usize,
    base: Cell,
    index: usize,
    part: &RoleGrants<'_>,
    state: &mut State,
) -> Answer
    requires places { Places first end batch.now }
    requires row { index + (end - first) ≤ 7 }
    requires scaler { IsScaler base.0 }
    ensures answer { (g : Terms) (role : ℕ) → Scaler base.0 role → IsRole g role part.now → answer_in result ≡ answer_of (body_from g first (kinds.Video (offset_of (cell (base.0 + index)))) (slice first end (words_of batch.now)) state.old) }
    ensures state { (g : Terms) (role : ℕ) → Scaler base.0 role → IsRole g role part.now → state.new ≡ (body_from g first (kinds.Video (offset_of (cell (base.0 + index)))) (slice first end (words_of batch.now)) state.old).state }
{
    let ask = move |k: usize, w: u32| Asked {
        verdict: judging::scaler_reason(k, w, part),
        cell: Cell(base.0 + k),
        value: w,
    };
    take(batch, first, end, index, ask, state)
}
