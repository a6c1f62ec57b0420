// Step records: a step read from bytes, and written as bytes (SPEC, "Step records").
#![tactic(auto)]

mod cursor;
mod decode;
mod encode;
mod fields;
mod kinds;
mod map;

ghost use Rattle.std.specs.Prelude.{◌≡◌};
ghost use Rattle.record.specs.Read.{reading_of, found_of};
ghost use Rattle.record.specs.Write.{writing_of, written_of, writing_from, written_from};

use checks::Refusal;
pub use fields::Fields;
use kinds::Kind;
use map::Map;
use state::Step;

// Reads the record at the start of bytes: the step with the length used. What stands beyond it is not looked at.
#[tactic(auto, using(crate::proofs::Accepted::found_refused, crate::proofs::Accepted::found_read))]
pub fn read_record(bytes: &[u8]) -> Result<(Step, usize), Refusal>
    ensures { result ≡ reading_of bytes.now }
{
    let (found, used) = read_fields(bytes)?;
    Ok((Step::from(found), used))
}

// Reads the same record, and answers the fields of its step with the length used. Inlined, so that the fields stay out of
// memory.
#[tactic(auto, using(crate::proofs::Accepted::all_found), unfolding(checks::specs::Checks::must, crate::specs::Map::malformed, crate::specs::Read::found_of, crate::specs::Read::reading_of, crate::specs::Read::read_checks))]
#[inline(always)]
pub fn read_fields(bytes: &[u8]) -> Result<(Fields, usize), Refusal>
    ensures { result ≡ found_of bytes.now }
{
    let map = Map::try_from(*bytes.first().ok_or(Refusal::CutShort)?)?;
    let kind = Kind::try_from(*bytes.get(1).ok_or(Refusal::CutShort)?)?;
    if map.asks_more(kind.mask()) {
        return Err(Refusal::Malformed);
    }
    let length = map.record_length();
    if bytes.len() < length {
        return Err(Refusal::CutShort);
    }
    let f = decode::fields_at(bytes, map, kind);
    if map.zero_among(f) {
        return Err(Refusal::Malformed);
    }
    Ok((f, length))
}

// Writes the step's record at the start of buffer, and answers the length used; what stands beyond it is left alone.
#[tactic(auto, using(crate::proofs::Writes::step_written, crate::proofs::Writes::step_left))]
pub fn write_record(step: Step, buffer: &mut [u8]) -> Result<usize, Refusal>
    ensures answer { result ≡ writing_of step buffer.old }
    ensures bytes { buffer.new ≡ written_of step buffer.old }
{
    write_fields(Fields::from(step), buffer)
}

// Writes the record of the step of these fields. A field that the kind lacks is not looked at; a kind that is none of
// the ten is refused. Inlined: two calls of C write records, and a call to a function that both share takes a quarter longer.
#[tactic(auto, using(crate::proofs::Writes::write_rules))]
#[inline(always)]
pub fn write_fields(f: Fields, buffer: &mut [u8]) -> Result<usize, Refusal>
    ensures answer { result ≡ writing_from f buffer.old }
    ensures bytes { buffer.new ≡ written_from f buffer.old }
{
    let kind = Kind::try_from(f.kind)?;
    let map = kind.mask().map_of(f);
    let length = map.record_length();
    if buffer.len() < length {
        return Err(Refusal::WrongLength);
    }
    encode::put_fields(buffer, map, f);
    Ok(length)
}
