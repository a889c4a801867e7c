// Packets one after another, read out of bytes. What a refusal leaves in the state is what the words before it wrote.
#![tactic(auto)]

ghost use Rattle.std.specs.Prelude.{◌≡◌, List, ℕ, ◌+◌, ◌/◌, ◌≤◌, ◌<◌, length, get_or, drop};
ghost use Rattle.std.proofs.Math.Seq.{slice};
ghost use Rattle.meaning.specs.declared.Kind.TheVariants as kinds;
ghost use Rattle.meaning.specs.Words.{count, words_of};
ghost use Rattle.meaning.specs.Grants.{Terms};
ghost use Rattle.meaning.specs.Answers.{answer_in};
ghost use Rattle.grants.specs.Held.{IsKept};
ghost use Rattle.bodies.specs.Passes.{answer_of, body_from, Comes, Places};
ghost use Rattle.packets.specs.Packets.{headed, packet_from, packets_from};

use grants::Kept;
use headers::Header;
use meaning::{Answer, Reason, State};

// A setting at place `at` behind which no parameter is at hand, up to place `end`; the setting itself may be missing too.
fn read_lone(batch: &[u8], at: usize, end: usize) -> Answer
    requires places { Places at end batch.now }
    requires lone { end ≤ at + 1 }
    ensures read { (g : Terms) (st : List ℕ) → Comes (answer_in result) st (body_from g at kinds.Setting (slice at end (words_of batch.now)) st) }
{
    if at == end {
        return Ok(end);
    }
    headers::group_of(words::word(batch, at)).ok_or(Reason::BadSetting.at(at))?;
    Ok(end)
}

// A setting at place `at`, and its parameters, up to place `end`. Kept: that there is a setting and a parameter is asked at once, which is
// quicker: in a batch that does not end inside a packet there always is.
fn read_3d(batch: &[u8], at: usize, end: usize, kept: &Kept<'_>, state: &mut State) -> Answer
    requires places { Places at end batch.now }
    ensures read { (g : Terms) → IsKept g kept.now → Comes (answer_in result) state.new (body_from g at kinds.Setting (slice at end (words_of batch.now)) state.old) }
{
    if end <= at + 1 {
        return read_lone(batch, at, end);
    }
    let group = headers::group_of(words::word(batch, at)).ok_or(Reason::BadSetting.at(at))?;
    let part = kept.part_of(1);
    bodies::take_parameters(batch, at + 1, end, group, &part, state)
}

// A header at place `at`, and the words of its body that are at hand, up to place `end`.
fn read_headed(
    batch: &[u8],
    at: usize,
    header: u32,
    end: usize,
    kept: &Kept<'_>,
    state: &mut State,
) -> Answer
    requires places { Places (at + 1) end batch.now }
    requires short { end ≤ at + 1 + count header }
    ensures read { (g : Terms) → IsKept g kept.now → Comes (answer_in result) state.new (headed g at header (slice (at + 1) end (words_of batch.now)) state.old) }
{
    match headers::header_of(header).map_err(|reason| reason.at(at))? {
        Header::Setting => read_3d(batch, at + 1, end, kept, state),
        Header::Overlay(index) => bodies::take_overlay(batch, at + 1, end, index, state),
        // Both scalers go through one loop, so that it is compiled in place.
        Header::Scaler(run) => {
            let part = kept.part_of(run.role);
            bodies::take_scaler(batch, at + 1, end, run.base, run.index, &part, state)
        }
    }
}

// One packet, whose header stands at place `at`: what the first bad word of it gives, or else the place after it by its header's count, also
// where the words end before that.
pub fn read_packet(batch: &[u8], at: usize, kept: &Kept<'_>, state: &mut State) -> Answer
    requires header { at < length batch.now / 4 }
    ensures answer { (g : Terms) → IsKept g kept.now → answer_in result ≡ answer_of (packet_from g at (drop at (words_of batch.now)) state.old) }
    ensures state { (g : Terms) → IsKept g kept.now → state.new ≡ (packet_from g at (drop at (words_of batch.now)) state.old).state }
    ensures ahead { (next : ℕ) → result ≡ Ok next → next ≡ at + 1 + count (get_or (words_of batch.now) at 0) }
{
    let header = words::word(batch, at);
    let n = fields::count(header) as usize;
    let next = at + 1 + n;
    let end = next.min(batch.len() / 4);
    read_headed(batch, at, header, end, kept, state)?;
    Ok(next)
}

// Packets from the front: what the first bad word gives, 10 where the batch ends inside a packet, or else the batch's length.
pub fn read_packets(batch: &[u8], kept: &Kept<'_>, state: &mut State) -> Answer
    ensures answer { (g : Terms) → IsKept g kept.now → answer_in result ≡ answer_of (packets_from g 0 kinds.Setting 0 (words_of batch.now) state.old) }
    ensures state { (g : Terms) → IsKept g kept.now → state.new ≡ (packets_from g 0 kinds.Setting 0 (words_of batch.now) state.old).state }
{
    let words = batch.len() / 4;
    let mut at = 0;
    while at < words {
        at = read_packet(batch, at, kept, state)?;
    }
    if at != words {
        return Err(Reason::EndsInside.at(words));
    }
    Ok(words)
}
