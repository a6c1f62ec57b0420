ghost use Rattle.std.specs.Prelude.{◌≡◌, ◌<◌, is_some, IfSome, set};
ghost use Rattle.layout.specs.Places.{Row};
ghost use Rattle.layout.specs.Cells.{sizes_of};

use crate::plan::Plan;
use crate::stored::{store_at, stored_at};
use crate::{BASE, LIMITS, OFF, sizes};
use command::Limits;
use state::{Block, Server, Sizes};

// A room that is lent to be read: its cells, and the sizes by which they are read.
#[derive(Clone, Copy)]
pub struct Room<'a> {
    pub cells: &'a [u32],
    pub sizes: Sizes,
    ghost row: { Row sizes cells.now },
    ghost head: { sizes ≡ sizes_of cells.now },
}

impl<'a> Room<'a> {
    ghost use Rattle.layout.specs.Cells.{is_row, off_of, limits_of, server_of, block_of};

    // The room that a row is, where it is as long as the sizes in its head say.
    #[tactic(auto, using(crate::proofs::PlaceLaws::fit_of), unfolding(crate::specs::Cells::is_row))]
    pub fn of(cells: &'a [u32]) -> Option<Room<'a>>
        ensures row { is_some result ≡ is_row cells.now }
        ensures cells { IfSome result (λ room. room.cells.now ≡ cells.now) }
    {
        if cells.len() < BASE {
            return None;
        }
        let plan = Plan::of(sizes(cells))?;
        if cells.len() != plan.room_length() {
            return None;
        }
        Some(Room {
            cells,
            sizes: plan.sizes,
        })
    }

    // The places by its sizes.
    pub fn plan(&self) -> Plan
        ensures { result.sizes ≡ self.now.sizes }
    {
        Plan { sizes: self.sizes }
    }

    // The limits by which its commands are judged.
    #[tactic(auto, using(crate::proofs::PlaceLaws::row_head))]
    pub fn limits(&self) -> Limits
        ensures { result.0 ≡ limits_of self.now.cells.now }
    {
        stored_at(self.cells, LIMITS)
    }

    // The off marks.
    #[tactic(auto, using(crate::proofs::PlaceLaws::row_head))]
    pub fn off(&self) -> u32
        ensures { result ≡ off_of self.now.cells.now }
    {
        self.cells[OFF]
    }

    // The record of server p in slot s. That the place is in the room is a clause here and below, as in `Plan`.
    // Beside `block` and no generic function: a block has one index more, and what the two share is `stored_at`.
    #[tactic(auto, using(crate::proofs::PlaceLaws::server_inside, crate::proofs::CellLaws::server_moved), unfolding(crate::specs::Cells::server_of))]
    pub fn server(&self, s: u32, p: u32) -> Server
        requires { (s < self.now.sizes.slots) × (p < self.now.sizes.servers) }
        ensures { result ≡ server_of self.now.sizes self.now.cells.now s p }
    {
        stored_at(self.cells, self.plan().server_at(s, p))
    }

    // Server p's block on drive d in slot s.
    #[tactic(auto, using(crate::proofs::PlaceLaws::block_inside, crate::proofs::CellLaws::block_moved), unfolding(crate::specs::Cells::block_of))]
    pub fn block(&self, s: u32, d: u32, p: u32) -> Block
        requires { (s < self.now.sizes.slots) × (d < self.now.sizes.drives) × (p < self.now.sizes.servers) }
        ensures { result ≡ block_of self.now.sizes self.now.cells.now s d p }
    {
        stored_at(self.cells, self.plan().block_at(s, d, p))
    }
}

// A room that is lent to be changed.
#[derive(Drop)]
pub struct RoomMut<'a> {
    pub cells: &'a mut [u32],
    pub sizes: Sizes,
    ghost row: { Row sizes cells.now },
    ghost head: { sizes ≡ sizes_of cells.now },
}

impl<'a> RoomMut<'a> {
    ghost use Rattle.layout.specs.Cells.{off_at, put_server, put_block};
    ghost use Rattle.layout.specs.Rooms.{Becomes};

    // The room that a row is. It asks for a row, since the room that was judged is lent to be read, and that loan is over first.
    #[tactic(auto, using(crate::proofs::PlaceLaws::row_head))]
    pub fn new(cells: &'a mut [u32]) -> RoomMut<'a>
        requires { Row (sizes_of cells.old) cells.old }
        ensures same_reference { result.cells.ghost_name ≡ cells.entry.ghost_name }
        ensures cells { result.cells.now ≡ cells.old }
        ensures sizes { result.sizes ≡ sizes_of cells.old }
    {
        let sizes = sizes(cells);
        RoomMut { cells, sizes }
    }

    // The room as it is now, lent to be read.
    pub fn as_room(&self) -> Room<'_>
        ensures { result.cells.now ≡ self.now.cells.now }
    {
        Room {
            cells: self.cells,
            sizes: self.sizes,
        }
    }

    // Stores the record of server p in slot s.
    // Beside `store_block` and no generic function, for the same reason: what the two share is `store_at`.
    #[tactic(auto, using(crate::proofs::PlaceLaws::server_inside, crate::proofs::RoomLaws::server_row, crate::proofs::RoomLaws::server_sizes), unfolding(crate::specs::Cells::put_server))]
    pub fn store_server(&mut self, s: u32, p: u32, v: Server)
        requires { (s < self.old.sizes.slots) × (p < self.old.sizes.servers) }
        ensures { Becomes self.old (put_server self.old.sizes self.old.cells.now s p v) self.new }
    {
        let at = self.as_room().plan().server_at(s, p);
        store_at(self.cells, at, v);
    }

    // Stores server p's block on drive d in slot s.
    #[tactic(auto, using(crate::proofs::PlaceLaws::block_inside, crate::proofs::RoomLaws::block_row, crate::proofs::RoomLaws::block_sizes), unfolding(crate::specs::Cells::put_block))]
    pub fn store_block(&mut self, s: u32, d: u32, p: u32, b: Block)
        requires { (s < self.old.sizes.slots) × (d < self.old.sizes.drives) × (p < self.old.sizes.servers) }
        ensures { Becomes self.old (put_block self.old.sizes self.old.cells.now s d p b) self.new }
    {
        let at = self.as_room().plan().block_at(s, d, p);
        store_at(self.cells, at, b);
    }

    // Stores the off marks.
    #[tactic(auto, using(crate::proofs::PlaceLaws::row_head, crate::proofs::RoomLaws::off_row, crate::proofs::RoomLaws::off_sizes))]
    pub fn store_off(&mut self, marks: u32)
        ensures { Becomes self.old (set self.old.cells.now off_at marks) self.new }
    {
        self.cells[OFF] = marks;
    }
}
