// The register's calls for C and Rust: numbers and slices only. A slice is a pointer and then a length. Each function
// takes any input at all; its contract gives the answer, packed in one number, and every lent cell or byte by the
// definitions of the call that it wraps. A step is given by its record.
#![tactic(auto)]

ghost use Rattle.std.specs.Prelude.{◌≡◌, length};
ghost use Rattle.state.specs.Sizes.{sizes};
ghost use Rattle.layout.specs.Places.{length_of, server_place, block_place};
ghost use Rattle.checks.specs.Refusals.{refusal_in};
ghost use Rattle.room.specs.Open.{opening, opened};
ghost use Rattle.free_slots.specs.Ask.{asked};
ghost use Rattle.free_slots.specs.Put.{put_answered, put_cells};
ghost use Rattle.progress.specs.Next.{next_answered};
ghost use Rattle.record.specs.Fields.{fields};
ghost use Rattle.record.specs.Read.{reading_of};
ghost use Rattle.record.specs.Write.{writing_from, written_from};
ghost use Rattle.catalogue.specs.Call.{catalogue_of, catalogue_cells};
ghost use Rattle.packing.specs.Packing.{packed_number};
ghost use Rattle.register_c.specs.Packing.{packed_answer, packed_listing, packed_reading};
ghost use Rattle.register_c.specs.Calls.{record_answered, record_stepped, next_writing, next_written, fields_reading, fields_read};

use packing::{pack, word};
use register::{Fields, Limits, Refusal};
use state::{Answer, Sizes};

// The cells of a room of these sizes, 0 where they do not fit.
#[unsafe(no_mangle)]
pub extern "C" fn register_length(servers: u32, drives: u32, slots: u32) -> u32
    ensures { result ≡ length_of (sizes servers drives slots) }
{
    let z = Sizes::new(servers, drives, slots);
    // Here and below, `as` keeps the number: std has no From for it, and try_from would add a case.
    register::length_of(z) as u32
}

// The first cell of a server's record in a slot, 0 where a room of these sizes has no such place.
#[unsafe(no_mangle)]
pub extern "C" fn register_server_at(
    servers: u32,
    drives: u32,
    slots: u32,
    server: u32,
    slot: u32,
) -> u32
    ensures { result ≡ server_place (sizes servers drives slots) server slot }
{
    let z = Sizes::new(servers, drives, slots);
    register::server_place(z, server, slot) as u32
}

// The first cell of a server's block on a drive in a slot, 0 likewise.
#[unsafe(no_mangle)]
pub extern "C" fn register_block_at(
    servers: u32,
    drives: u32,
    slots: u32,
    server: u32,
    slot: u32,
    drive: u32,
) -> u32
    ensures { result ≡ block_place (sizes servers drives slots) server slot drive }
{
    let z = Sizes::new(servers, drives, slots);
    register::block_place(z, server, slot, drive) as u32
}

// Makes the row a new room with the limits of the eight cabinets: 0, or the refusal's number.
#[unsafe(no_mangle)]
pub extern "C" fn register_open(
    row: &mut [u32],
    servers: u32,
    drives: u32,
    slots: u32,
    limits: &[u32],
) -> u32
    ensures { (result ≡ refusal_in (opening (sizes servers drives slots) limits.now row.old))
        × (row.new ≡ opened (sizes servers drives slots) limits.now row.old) }
{
    let z = Sizes::new(servers, drives, slots);
    open_by(row, z, limits).err().map_or(0, Refusal::number)
}

// Takes the step of a record. A record that cannot be read is refused, and the room is left alone.
#[unsafe(no_mangle)]
pub extern "C" fn register_step(room: &mut [u32], bytes: &[u8]) -> u64
    ensures { (result ≡ packed_answer (record_answered room.old (reading_of bytes.now)))
        × (room.new ≡ record_stepped room.old (reading_of bytes.now)) }
{
    answer_word(take_record(room, bytes))
}

// The lowest slot that is free for a server, or the refusal.
#[unsafe(no_mangle)]
pub extern "C" fn register_ask(room: &[u32], server: u32) -> u64
    ensures { result ≡ packed_number (asked room.now server) }
{
    word(register::ask(room, server).map(u64::from))
}

// Offers a command in a slot that is free for the server.
#[unsafe(no_mangle)]
pub extern "C" fn register_put(room: &mut [u32], server: u32, slot: u32, command: u32) -> u64
    ensures { (result ≡ packed_answer (put_answered room.old server slot command))
        × (room.new ≡ put_cells room.old server slot command) }
{
    answer_word(register::put(room, server, slot, command))
}

// Writes the record of the server's next step in a slot: the length used, 0 where there is no step.
#[unsafe(no_mangle)]
pub extern "C" fn register_next(room: &[u32], server: u32, slot: u32, bytes: &mut [u8]) -> u64
    ensures answer { result ≡ packed_number (next_writing (next_answered room.now server slot) bytes.old) }
    ensures bytes { bytes.new ≡ next_written (next_answered room.now server slot) bytes.old }
{
    word(write_next(room, server, slot, bytes).map(|used| used as u64))
}

// Writes the catalogue of one server.
#[unsafe(no_mangle)]
pub extern "C" fn register_catalogue(room: &[u32], server: u32, cells: &mut [u32]) -> u64
    ensures { (result ≡ packed_listing (catalogue_of room.now server cells.old))
        × (cells.new ≡ catalogue_cells room.now server cells.old) }
{
    let counts = register::catalogue(room, server, cells);
    word(counts.map(|c| u64::from(c.taken) * 256 + u64::from(c.skipped)))
}

// Reads a record and stores its kind and fields in six cells, 0 for a field that the kind lacks: the length used, or the
// refusal. Not six cells are refused with 2.
#[unsafe(no_mangle)]
pub extern "C" fn register_fields(bytes: &[u8], fields: &mut [u32]) -> u64
    ensures answer { result ≡ packed_reading (fields_reading bytes.now fields.old) }
    ensures cells { fields.new ≡ fields_read (fields_reading bytes.now fields.old) fields.old }
{
    word(store_fields(bytes, fields))
}

// Reads a record: the length used, or the refusal.
#[unsafe(no_mangle)]
pub extern "C" fn register_read(bytes: &[u8]) -> u64
    ensures { result ≡ packed_reading (reading_of bytes.now) }
{
    word(register::read_record(bytes).map(|(_, used)| used as u64))
}

// Writes the record of a step: the length used, or the refusal. A field that the kind lacks is not looked at; a kind
// that is none of the ten is refused with 15.
#[unsafe(no_mangle)]
pub extern "C" fn register_write(
    kind: u8,
    server: u8,
    slot: u8,
    drive: u8,
    other: u8,
    number: u32,
    bytes: &mut [u8],
) -> u64
    ensures answer { result ≡ packed_number (writing_from (fields kind server slot drive other number) bytes.old) }
    ensures bytes { bytes.new ≡ written_from (fields kind server slot drive other number) bytes.old }
{
    let f = Fields::new(kind, server, slot, drive, other, number);
    word(register::write_fields(f, bytes).map(|used| used as u64))
}

// Opens the room by the limits that are lent. Not eight are refused as a row of another length is.
#[tactic(auto, unfolding(room::specs::Open::opening, room::specs::Open::opened, room::specs::Open::open_checks, checks::specs::Checks::must))]
fn open_by(row: &mut [u32], z: Sizes, limits: &[u32]) -> Result<(), Refusal>
    ensures { (result ≡ opening z limits.now row.old) × (row.new ≡ opened z limits.now row.old) }
{
    match limits.as_array() {
        Some(limits) => register::open(row, z, Limits(*limits)),
        None if layout::sizes_fit(z) => Err(Refusal::WrongLength),
        None => Err(Refusal::SizesUnfit),
    }
}

// What the step of a record answers. `?` hands a refusal on, and not `and_then`, since a closure that takes the step would
// leave nothing known of the room.
fn take_record(room: &mut [u32], bytes: &[u8]) -> Result<Answer, Refusal>
    ensures answer { result ≡ record_answered room.old (reading_of bytes.now) }
    ensures cells { room.new ≡ record_stepped room.old (reading_of bytes.now) }
{
    let (step, _) = register::read_record(bytes)?;
    register::step(room, step)
}

// Writes the record of the next step, where there is one.
fn write_next(room: &[u32], server: u32, slot: u32, bytes: &mut [u8]) -> Result<usize, Refusal>
    ensures answer { result ≡ next_writing (next_answered room.now server slot) bytes.old }
    ensures bytes { bytes.new ≡ next_written (next_answered room.now server slot) bytes.old }
{
    match register::next(room, server, slot)? {
        Some(step) => register::write_record(step, bytes),
        None => Ok(0),
    }
}

// Stores the kind and the fields of a record, each in its cell, and answers the length used. Cell by cell and no From: C alone
// asks for six cells in this order.
fn store_fields(bytes: &[u8], fields: &mut [u32]) -> Result<u64, Refusal>
    ensures answer { packed_number result ≡ packed_reading (fields_reading bytes.now fields.old) }
    ensures cells { fields.new ≡ fields_read (fields_reading bytes.now fields.old) fields.old }
{
    let cells = fields.as_mut_array::<6>().ok_or(Refusal::WrongLength)?;
    let (f, used) = register::read_fields(bytes)?;
    *cells = [
        f.kind.into(),
        f.server.into(),
        f.slot.into(),
        f.drive.into(),
        f.other.into(),
        f.number,
    ];
    Ok(used as u64)
}

// A step's answer: its word and its number.
fn answer_word(answered: Result<Answer, Refusal>) -> u64
    ensures { result ≡ packed_answer answered }
{
    pack(state::code(answered), state::number(answered))
}
