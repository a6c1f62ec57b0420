// The fields of a record, taken from its bytes by the map.
ghost use Rattle.std.specs.Prelude.{◌≡◌, ◌≤◌, length};
ghost use Rattle.record.specs.Fields.{values_of};
ghost use Rattle.record.specs.Kinds.{kind_number};
ghost use Rattle.record.specs.Map.{widths, record_length};
ghost use Rattle.record.specs.Read.{values_at};

use crate::cursor::Cursor;
use crate::fields::Fields;
use crate::kinds::Kind;
use crate::map::Map;

// All fields by the map; one whose bit does not stand is 0. Inlined, so that the fields stay out of memory.
#[tactic(auto, using(crate::proofs::Bytes::low_word), unfolding(crate::specs::Map::record_length, crate::specs::Map::fields_length, crate::specs::Read::values_at, crate::specs::Read::low_number))]
#[inline(always)]
pub(crate) fn fields_at(bytes: &[u8], map: Map, kind: Kind) -> Fields
    requires { record_length map ≤ length bytes.now }
    ensures kind { result.kind ≡ kind_number kind }
    ensures values { values_of result ≡ values_at widths map bytes.now 2 }
{
    let mut cursor = Cursor::new(map);
    let [server] = cursor.read::<1>(bytes);
    let [slot] = cursor.read::<1>(bytes);
    let [drive] = cursor.read::<1>(bytes);
    let [other] = cursor.read::<1>(bytes);
    let number = u32::from_le_bytes(cursor.read(bytes));
    kind.fields(server, slot, drive, other, number)
}
