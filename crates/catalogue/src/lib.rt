// The catalogue: each piece's hoard, by the commands that one server knows to be settled.
#![tactic(auto)]

ghost use Rattle.std.specs.Prelude.{◌≡◌, ◌<◌, cond, replicate, Some, None};
ghost use Rattle.command.specs.Command.{kind_of, piece_of, hoard_of};
ghost use Rattle.catalogue.specs.Entry.{entered, applies, skips, changed};
ghost use Rattle.catalogue.specs.Fold.{pieces, cell_of, cells_after};
ghost use Rattle.catalogue.specs.Call.{NamesPieces, entries_of, counted, catalogue_of, catalogue_cells};

use checks::Refusal;
use command::kinds::Kind;
use layout::rooms::Room;

// One cell for each piece. `as` keeps the number, here and below: std has no From of a u32 for a usize.
pub const PIECES: usize = command::PIECES as usize;

// The cell of a piece that was struck: above every hoard. A number and no enum: C takes it in the cells.
pub const STRUCK: u32 = 256;

// What catalogue answers: how many commands were taken, and how many of these were skipped.
#[derive(Clone, Copy, Default)]
pub struct Counts {
    pub taken: u32,
    pub skipped: u32,
}

// Writes each piece's hoard, 0 if it has none, STRUCK if it was struck, as the outputs of one server give it. Refused with
// 2 where out is not 64 cells, 3 where the row is no room in range, and 4 where the server is beyond the room; then no
// cell changes.
#[tactic(auto, using(crate::proofs::CallLaws::names_pieces), unfolding(checks::specs::Checks::must, crate::specs::Call::catalogue_of, crate::specs::Call::catalogue_cells, crate::specs::Call::catalogue_checks))]
pub fn catalogue(room: &[u32], server: u32, out: &mut [u32]) -> Result<Counts, Refusal>
    ensures { (result ≡ catalogue_of room.now server out.old)
        × (out.new ≡ catalogue_cells room.now server out.old) }
{
    let out = out.as_mut_array::<PIECES>().ok_or(Refusal::WrongLength)?;
    let room = range::room_in(room)?;
    if !room.sizes.has_server(server) {
        return Err(Refusal::BeyondRoom);
    }
    out.fill(0);
    Ok(list(&room, server, out))
}

// Whether a catalogue's cell is a hoard.
pub fn entered(cell: u32) -> bool
    ensures { result ≡ entered cell }
{
    (1..STRUCK).contains(&cell)
}

// Takes the outputs from slot 0 up to the first slot without one.
// A loop and no iterator: a rule of the project prescribes one that is left by break with the number taken.
#[tactic(auto, using(crate::proofs::ListLaws::last_slot, crate::proofs::ListLaws::last_output), unfolding(crate::specs::Outputs::output_at))]
fn list(room: &Room, p: u32, out: &mut [u32; PIECES]) -> Counts
    requires { NamesPieces room.now.sizes room.now.cells.now p × (out.old ≡ replicate pieces 0) }
    ensures { (result ≡ counted room.now.sizes room.now.cells.now p)
        × (out.new ≡ (entries_of room.now.sizes room.now.cells.now p).cells) }
{
    let mut k: u32 = 0;
    let mut skipped: u32 = 0;
    let taken = loop {
        if k == room.sizes.slots {
            break k;
        }
        let Some(command) = room.server(k, p).output() else {
            break k;
        };
        skipped += u32::from(apply(out, command));
        k += 1;
    };
    Counts { taken, skipped }
}

// Applies one command to the cell of its piece; answers whether it is skipped.
#[tactic(auto, unfolding(crate::specs::Entry::entry, crate::specs::Fold::cells_after))]
fn apply(out: &mut [u32; PIECES], command: u32) -> bool
    requires { piece_of command < pieces }
    ensures { (result ≡ skips (kind_of command) (cell_of out.old command)) × (out.new ≡ cells_after out.old command) }
{
    let at = command::piece(command) as usize;
    let cell = out[at];
    match cell_after(command, cell) {
        Some(new) => {
            out[at] = new;
            false
        }
        None => true,
    }
}

// What the cell becomes; none where the command is skipped.
#[tactic(auto, unfolding(crate::specs::Entry::applies))]
fn cell_after(command: u32, cell: u32) -> Option<u32>
    ensures { result ≡ cond (applies (kind_of command) cell) (Some (changed (kind_of command) (hoard_of command))) None }
{
    let hoard = command::hoard(command);
    match Kind::try_from(command::kind(command)) {
        Ok(Kind::Enter) if cell == 0 => Some(hoard),
        Ok(Kind::Move) if entered(cell) => Some(hoard),
        Ok(Kind::Strike) if entered(cell) => Some(STRUCK),
        _ => None,
    }
}
