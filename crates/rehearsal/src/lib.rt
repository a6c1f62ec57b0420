// What the program rehearse prints for an input, put into lent bytes, and the program's work from input to output.
#![tactic(auto)]

mod input;
mod records;

ghost use Rattle.std.specs.Prelude.{◌≡◌, ◌+◌, ◌*◌, ◌≤◌, length, OnOk};
ghost use Rattle.transcript.specs.Lines.{line_max};
ghost use Rattle.rehearsal.specs.Script.{script};
ghost use Rattle.rehearsal.specs.Rehearsal.{Takes, record_lines, room_after, line_of, server_lines, run_text, rehearsal};
ghost use Rattle.rehearsal.specs.Buffer.{Holds, record_max, step_max, text_max, Adds, HasLeft};
ghost use Rattle.rehearsal.specs.Output.{Rehearses};

use input::{read_full, skip_rest};
use records::Records;
use register::{Answer, Limits, Refusal, Step};
use state::Sizes;
use std::io;
use std::io::{Read, Write};
use transcript::Transcript;

// The most bytes that an input may have.
pub const INPUT_MAX: usize = 65536;
// The cells of the largest room.
pub const CELLS_MAX: usize = layout::LONGEST_ROOM;
// The lines of records: one for each two bytes at most, and one for a byte that is left.
const RECORDS_MAX: usize = 32767;
// The longest line of a record: an index of five digits, " committed ", a number of ten digits, and the line's end.
const STEP_MAX: usize = 27;
// The bytes of the longest text: the lines of the records and of four servers.
pub const TEXT_MAX: usize = STEP_MAX * RECORDS_MAX + 4 * transcript::LINE_MAX;

// Reads an input, up to its end or a read that fails, and writes its text in one piece. Memory is fixed: input, room and
// text are arrays.
pub fn rehearse_from<R: Read, W: Write>(from: &mut R, to: &mut W) -> io::Result<()>
    ensures { OnOk result (Rehearses (R.remaining from.old) (R.remaining from.new)
        (W.contents to.old) (W.contents to.new)) }
{
    let mut buffer = [0u8; INPUT_MAX + 1];
    let input = read_full(from, &mut buffer);
    let too_long = INPUT_MAX < input.len();
    let mut room = [0u32; CELLS_MAX];
    let mut out = [0u8; TEXT_MAX];
    let length = rehearse(input, &mut room, &mut out);
    if too_long {
        // What is left of an input that is too long is read too, so that whoever writes it can end.
        skip_rest(from, &mut buffer);
    }
    to.write_all(&out[..length])
}

// Puts the text for an input at the start of out and answers its length. Tried with the text itself as the answer, a part of
// out: nothing is then known of out when the call is over.
#[tactic(auto, using(crate::proofs::BufferLaws::only_lines))]
pub fn rehearse(input: &[u8], cells: &mut [u32; CELLS_MAX], out: &mut [u8; TEXT_MAX]) -> usize
    ensures { Holds out.new result (rehearsal input.now) }
{
    let mut text = Transcript::new(out);
    put_text(input, cells, &mut text);
    text.length
}

// Puts the whole text behind what is there. An input that is too long, and one without its three sizes, has one line. The
// room and the text stay two parameters, here and below: the steps write both, and the servers' lines only look at the
// room. What has to be left in the text differs from function to function, so it is a clause of each.
#[tactic(auto, using(crate::proofs::OpenedLaws::taken_apart, crate::proofs::ScriptLaws::to_end))]
fn put_text(input: &[u8], cells: &mut [u32; CELLS_MAX], text: &mut Transcript)
    requires { HasLeft text.old text_max }
    ensures { Adds text.old (rehearsal input.now) text.new text_max }
{
    match input {
        _ if INPUT_MAX < input.len() => text.open_line(Refusal::WrongLength.number()),
        [servers, drives, slots, records @ ..] => {
            let z = Sizes::new((*servers).into(), (*drives).into(), (*slots).into());
            run(z, records, cells, text);
        }
        _ => text.open_line(Refusal::CutShort.number()),
    }
}

// The run of a room, which is the part of cells that is exactly as long: the lines of the records and of the servers.
#[tactic(auto, using(crate::proofs::OpenedLaws::opened_fits, layout::proofs::PlaceLaws::fit_of))]
fn run(z: Sizes, records: &[u8], cells: &mut [u32; CELLS_MAX], text: &mut Transcript)
    requires { (length records.now ≤ 2 * record_max) × HasLeft text.old text_max }
    ensures { Adds text.old (run_text z (script records.now)) text.new text_max }
{
    let room = &mut cells[..layout::length_of(z)];
    match register::open(room, z, Limits::of_cabinets()) {
        Ok(()) => {
            steps(records, room, text);
            servers(z.servers, room, text);
        }
        Err(refusal) => text.open_line(refusal.number()),
    }
}

// Takes the steps of the records, a line for each, until the input ends or a record can't be read.
#[tactic(auto, using(crate::proofs::Going::all_lines, crate::proofs::Going::last_room))]
fn steps(records: &[u8], room: &mut [u32], text: &mut Transcript)
    requires { (length records.now ≤ 2 * record_max) × HasLeft text.old (step_max * record_max + line_max) }
    ensures lines { Adds text.old (record_lines 0 room.old (script records.now)) text.new (step_max * record_max) }
    ensures room { room.new ≡ room_after room.old (script records.now) }
{
    for (index, record) in Records(records).enumerate() {
        // `as` keeps the number: there are fewer than 65,536 records.
        text.step_line(index as u32, answer_of(record, room));
    }
}

// What a record answers: what its step does, or why it can't be read. `?` hands the refusal on, and not `and_then`, since a
// closure that takes the step would leave nothing known of the room.
fn answer_of(read: Result<Step, Refusal>, room: &mut [u32]) -> Result<Answer, Refusal>
    ensures { Takes room.old read result room.new }
{
    register::step(room, read?)
}

// A line for each of the first servers: the two counts of its catalogue.
#[tactic(auto, using(crate::proofs::BufferLaws::no_servers, crate::proofs::BufferLaws::more_servers))]
fn servers(count: u32, room: &[u32], text: &mut Transcript)
    requires { HasLeft text.old (line_max * count) }
    ensures { Adds text.old (server_lines room.now count) text.new (line_max * count) }
{
    for p in 0..count {
        server(p, room, text);
    }
}

// The line of one server. The cells of its catalogue are an array, since memory is fixed.
fn server(p: u32, room: &[u32], text: &mut Transcript)
    requires { HasLeft text.old line_max }
    ensures { Adds text.old (line_of room.now p) text.new line_max }
{
    let mut pieces = [0u32; catalogue::PIECES];
    let counts = register::catalogue(room, p, &mut pieces).unwrap_or_default();
    text.server_line(p, counts.taken, counts.skipped);
}
