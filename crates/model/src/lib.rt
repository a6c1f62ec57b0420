// A room as a value, what each of the ten steps makes of it, and the row that is its encoding: definitions, and what is promised
// of them. There is no code here.
#![tactic(auto)]

ghost use Rattle.model.specs.Promise.{RoomWhereInRange, RowAgain, RowShaped, CellsRow, RoomAgain, RoomInCells};

/// A row is a room exactly where it is in range, for every row.
#[tactic(auto, using(crate::proofs::Ranged::room_where_in_range))]
pub fn room_where_in_range()
    ensures { RoomWhereInRange }
{}

/// The cells of the room that a row is read as are the row again, for every row that is as long as its sizes say, in range or
/// not; and that room has the shape of one.
#[tactic(auto, using(crate::proofs::Rows::row_again, crate::proofs::Rows::row_shaped))]
pub fn row_again()
    ensures cells { RowAgain }
    ensures shape { RowShaped }
{}

/// The cells of what has the shape of a room are a row, and the room is read from them again, in range or not; where it is in
/// range, it is the room that they are.
#[tactic(auto, using(crate::proofs::Again::cells_are_row, crate::proofs::Again::room_again, crate::proofs::Again::room_in_cells))]
pub fn room_again()
    ensures row { CellsRow }
    ensures room { RoomAgain }
    ensures in_range { RoomInCells }
{}
