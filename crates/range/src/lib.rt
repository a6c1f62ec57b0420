// The range rule: whether a row of cells is a room with every cell in range.
#![tactic(auto)]

mod fours;
mod values;

ghost use Rattle.std.specs.Prelude.{◌≡◌, ◌*◌, true, false, length, MatchResult};
ghost use Rattle.std.specs.List.{list_all};
ghost use Rattle.command.specs.Tops.{value_by};
ghost use Rattle.checks.specs.declared.Refusal.TheVariants.{OutOfRange};
ghost use Rattle.layout.specs.Places.{server_length, block_length, slot_length};
ghost use Rattle.layout.specs.Cells.{server_in, limits_of};
ghost use Rattle.range.specs.Range.{masks_of, numbers_fit, server_fits, block_fits, chunks, every_block, slot_in, room_fits, in_range};

use checks::Refusal;
use command::Tops;
use fours::{each, fours_fit};
use layout::plan::Plan;
use layout::rooms::Room;
use layout::stored::Stored;
use layout::{BASE, BLOCK_CELLS, SERVER_CELLS};
use quorum::only_legal;
use state::{Block, Server};
use values::{block_fits, own_values_fit};

// The legal marks of drives, and of blocks read: made once for a room.
#[derive(Clone, Copy)]
pub struct Masks {
    pub drives: u32,
    pub reads: u32,
}

// A row of ones at every fourth bit, cut after the last drive, times the ones of the servers.
#[tactic(auto, using(crate::proofs::MaskTable::drive_mask, crate::proofs::MaskTable::read_mask))]
pub fn masks_of(plan: Plan) -> Masks
    ensures { result ≡ masks_of plan.sizes }
{
    let z = plan.sizes;
    Masks {
        drives: (1 << z.drives) - 1,
        reads: ((1 << z.servers) - 1) * (0x1111111 % (1 << (4 * z.drives))),
    }
}

// The room that a row is, where every cell is in range by the room's own limits.
#[tactic(auto, using(crate::proofs::Laws::no_row, crate::proofs::Laws::row_in))]
pub fn room_in<'a>(cells: &'a [u32]) -> Result<Room<'a>, Refusal>
    ensures { MatchResult result
        (λ room. (in_range cells.now ≡ true) × (room.cells.now ≡ cells.now))
        (λ refusal. (in_range cells.now ≡ false) × (refusal ≡ OutOfRange)) }
{
    let room = Room::of(cells).ok_or(Refusal::OutOfRange)?;
    if !room_fits(&room) {
        return Err(Refusal::OutOfRange);
    }
    Ok(room)
}

// Whether the limits, the off marks and the slots of a room are in range.
fn room_fits(room: &Room) -> bool
    ensures { result ≡ room_fits (limits_of room.now.cells.now) room.now.sizes room.now.cells.now }
{
    let limits = room.limits();
    if !limits.fit() {
        return false;
    }
    let plan = room.plan();
    let legal = Legal {
        tops: limits.tops(),
        marks: masks_of(plan),
        plan,
    };
    only_legal(room.off(), legal.marks.drives) && legal.slots_fit(&room.cells[BASE..])
}

// What a room's cells are judged by: the table of values, by the room's limits, the legal marks, and the places.
#[derive(Drop)]
struct Legal {
    tops: Tops,
    marks: Masks,
    plan: Plan,
}

impl Legal {
    // Every slot of a row of them.
    #[tactic(auto, using(layout::proofs::PlaceLaws::slot_some))]
    fn slots_fit(&self, cells: &[u32]) -> bool
        ensures { result ≡ list_all (slot_in (value_by self.now.tops.0) self.now.marks (server_length * self.now.plan.sizes.servers)) (chunks (slot_length self.now.plan.sizes) cells.now) }
    {
        cells
            .chunks_exact(self.plan.slot_length())
            .all(|slot| self.slot_fits(slot))
    }

    // One slot: its server records, then its blocks.
    #[tactic(auto, using(layout::proofs::PlaceLaws::records_within))]
    fn slot_fits(&self, slot: &[u32]) -> bool
        requires { length slot.now ≡ slot_length self.now.plan.sizes }
        ensures { result ≡ slot_in (value_by self.now.tops.0) self.now.marks (server_length * self.now.plan.sizes.servers) slot.now }
    {
        // `as` keeps the number: std has no From of a u32 for a usize.
        let (servers, blocks) = slot.split_at(SERVER_CELLS * (self.plan.sizes.servers as usize));
        self.servers_fit(servers) && blocks_fit(&self.tops, blocks)
    }

    // The server records that stand one after the other.
    fn servers_fit(&self, cells: &[u32]) -> bool
        ensures { result ≡ list_all (λ r. server_fits (value_by self.now.tops.0) self.now.marks (server_in r 0)) (chunks server_length cells.now) }
    {
        let (records, _) = cells.as_chunks::<SERVER_CELLS>();
        records
            .iter()
            .all(|r| self.server_fits(Server::from_cells(*r)))
    }

    // One server record. Its numbers are judged together, then its values.
    #[tactic(auto, unfolding(crate::specs::Range::server_fits))]
    fn server_fits(&self, v: Server) -> bool
        ensures { result ≡ server_fits (value_by self.now.tops.0) self.now.marks v }
    {
        numbers_fit(self.marks, v) && own_values_fit(&self.tops, v)
    }
}

#[tactic(auto, unfolding(crate::specs::Range::numbers_fit))]
fn numbers_fit(k: Masks, v: Server) -> bool
    ensures { result ≡ numbers_fit k v }
{
    (v.phase <= 3)
        & Block::ballot_fits(v.mbal)
        & Block::ballot_fits(v.bal)
        & Block::ballot_fits(v.top)
        & Block::ballot_fits(v.seenbal)
        & only_legal(v.written, k.drives)
        & only_legal(v.read, k.reads)
}

// The blocks that stand one after the other: four at a time, then the rest one by one.
fn blocks_fit(tops: &Tops, cells: &[u32]) -> bool
    ensures { result ≡ every_block (block_fits (value_by tops.now.0)) (chunks block_length cells.now) }
{
    let (blocks, _) = cells.as_chunks::<BLOCK_CELLS>();
    let (fours, rest) = blocks.as_chunks::<4>();
    fours_fit(tops, fours) && each(rest, |b| block_fits(tops, b))
}
