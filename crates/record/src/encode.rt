// The bytes of a record, stored from its fields by the map.
ghost use Rattle.std.specs.Prelude.{◌≡◌, ◌≤◌, length};
ghost use Rattle.std.proofs.lemmas.List.Edits.{sets};
ghost use Rattle.record.specs.Fields.{values_of};
ghost use Rattle.record.specs.Map.{record_length};
ghost use Rattle.record.specs.Write.{bytes_of};

use crate::cursor::Cursor;
use crate::fields::Fields;
use crate::map::Map;

// The map, the kind, and the fields whose bit stands.
#[tactic(auto, using(crate::proofs::Five::put_byte, crate::proofs::Five::put_word), unfolding(crate::specs::Map::record_length, crate::specs::Map::fields_length, crate::specs::Write::bytes_of))]
pub(crate) fn put_fields(buffer: &mut [u8], map: Map, f: Fields)
    requires { record_length map ≤ length buffer.old }
    ensures { buffer.new ≡ sets buffer.old 0 (bytes_of map f.kind (values_of f)) }
{
    buffer[0] = u8::from(map);
    buffer[1] = f.kind;
    let mut cursor = Cursor::new(map);
    cursor.write(buffer, [f.server]);
    cursor.write(buffer, [f.slot]);
    cursor.write(buffer, [f.drive]);
    cursor.write(buffer, [f.other]);
    cursor.write(buffer, f.number.to_le_bytes());
}
