// Reads a batch under the grants that stand before it on standard input, and writes which grant admits the address in each register that the
// batch leaves, and the listing of the registers; or why the batch comes back.
#![tactic(auto)]

ghost use Rattle.std.specs.Prelude.{◌≡◌, ◌+◌, ◌*◌, ◌≤◌, ◌<◌, T, length, take, drop, IfOk, OnOk};
ghost use Rattle.std.specs.Io.KnownBytes.{Appends, Consumes, IsAtEnd};
ghost use Rattle.laws.specs.Lists.{over};
ghost use Rattle.meaning.specs.Words.{words_of};
ghost use Rattle.meaning.specs.Registers.{cells};
ghost use Rattle.meaning.specs.State.{state_words, well_formed};
ghost use Rattle.meaning.specs.Exported.{most_bytes};
ghost use Rattle.meaning.specs.Lister.{most_listed};
ghost use Rattle.name_grants.specs.Named.{grants_in, batch_in, grant_places, told, named, most_named};

use meaning::{CELLS, Cell, MOST_BYTES, MOST_LISTED, STATE_WORDS};
use std::io;
use std::io::{Read, Write};

// The bytes of a word.
const WORD: usize = 4;

// For grants and for a batch one byte more than a call takes: what is longer is refused by its length, without being held whole.
const INPUT_ROOM: usize = WORD + 2 * (MOST_BYTES + 1);

// The answer, a byte for each cell, and the longest listing.
const OUTPUT_ROOM: usize = WORD + CELLS + MOST_LISTED;

// Where the array is made, so that no proof but this one has to look at 131,078 zeros.
fn input_buffer() -> [u8; INPUT_ROOM]
    ensures whole { 4 + 2 * (most_bytes + 1) ≡ length result }
{
    [0; INPUT_ROOM]
}

// The place of the query's answer for each marked cell. Here and below the answer is how many bytes are put.
fn put_grants(state: &[u8], grants: &[u8], out: &mut [u8]) -> usize
    requires whole { length (words_of state.now) ≡ state_words }
    requires room { cells ≤ length out.old }
    ensures count { result ≡ length (grant_places state.now grants.now 0 cells) }
    ensures bytes { out.new ≡ over (grant_places state.now grants.now 0 cells) out.old }
{
    let mut count = 0;
    let mut c = 0;
    while c < CELLS {
        if states::mark(state, Cell(c)) != 0 {
            let number = irangelda::irangelda_which_grant(state, grants, c as u32);
            out[count] = (number / 256) as u8;
            count += 1;
        }
        c += 1;
    }
    count
}

// What is told of a state that a batch left: the places, and the listing behind them.
fn put_state(state: &[u8], grants: &[u8], out: &mut [u8]) -> usize
    requires size { length state.now ≡ state_words * 4 }
    requires formed { T (well_formed (words_of state.now)) }
    requires room { length out.old ≡ cells + most_listed }
    ensures count { result ≡ length (told state.now grants.now) }
    ensures bytes { out.new ≡ over (told state.now grants.now) out.old }
{
    let places = put_grants(state, grants, out);
    let number = irangelda::irangelda_list(state, &mut out[places..]);
    places + (number / 256) as usize
}

// What is written of a grant list and a batch.
fn report(grants: &[u8], batch: &[u8], out: &mut [u8]) -> usize
    requires room { length out.old ≡ most_named }
    ensures count { result ≡ length (named grants.now batch.now) }
    ensures bytes { out.new ≡ over (named grants.now batch.now) out.old }
{
    let mut state = [0u8; 4 * STATE_WORDS];
    let number = irangelda::irangelda_read(batch, grants, &mut state);
    words::put_word(out, 0, number as u32);
    if number % 256 != 0 {
        return WORD;
    }
    WORD + put_state(&state, grants, &mut out[WORD..])
}

// How many bytes behind the first word are the grant list: as many as the word says, and no more than there are.
fn list_length(input: &[u8]) -> usize
    requires word { 4 ≤ length input.now }
    ensures inside { 4 + result ≤ length input.now }
    ensures grants { take result (drop 4 input.now) ≡ grants_in input.now }
    ensures batch { drop result (drop 4 input.now) ≡ batch_in input.now }
{
    let length = words::word(input, 0) as usize;
    let most = input.len() - WORD;
    if most < length {
        return most;
    }
    length
}

// What is written of the input. Without a first word there are neither grants nor a batch.
fn report_input(input: &[u8], out: &mut [u8]) -> usize
    requires room { length out.old ≡ most_named }
    ensures count { result ≡ length (named (grants_in input.now) (batch_in input.now)) }
    ensures bytes { out.new ≡ over (named (grants_in input.now) (batch_in input.now)) out.old }
{
    if input.len() < WORD {
        return report(b"", b"", out);
    }
    let end = WORD + list_length(input);
    report(&input[WORD..end], &input[end..], out)
}

// Reads until the room is full or the input has ended. The answer is how many bytes that is.
fn read_full<R: Read>(from: &mut R, room: &mut [u8]) -> io::Result<usize>
    ensures inside { IfOk result (λ got. got ≤ length room.new) }
    ensures bytes { IfOk result (λ got. Consumes (R.remaining from.old) (R.remaining from.new) (take got room.new)) }
    ensures end { IfOk result (λ got. got < length room.new → IsAtEnd (R.remaining from.new)) }
{
    let mut got = 0;
    while got < room.len() {
        let more = from.read(&mut room[got..])?;
        if more == 0 {
            return Ok(got);
        }
        got += more;
    }
    Ok(got)
}

// Writes what there is to write of the input.
fn write_report<W: Write>(input: &[u8], to: &mut W) -> io::Result<()>
    ensures bytes { OnOk result (Appends (W.contents to.old) (W.contents to.new) (named (grants_in input.now) (batch_in input.now))) }
{
    let mut out = [0u8; OUTPUT_ROOM];
    let count = report_input(input, &mut out);
    to.write_all(&out[..count])
}

// A batch that was not read whole is not taken for one.
fn main(rt: HostRuntime) -> io::Result<()> {
    let mut input = input_buffer();
    let mut from = rt.stdin();
    match read_full(&mut from, &mut input) {
        Ok(got) => write_report(&input[..got], &mut rt.stdout()),
        Err(_) => eprintln!(rt; "name_grants: standard input cannot be read to its end"),
    }
}
