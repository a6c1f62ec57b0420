// The cells of a room: where each part stands, and how sizes, records and blocks are read and stored.
#![tactic(auto)]

ghost use Rattle.std.specs.Prelude.{◌≡◌, ◌≤◌, length};
ghost use Rattle.layout.specs.Places.{base, longest_room, sizes_fit, length_of, server_place, block_place};
ghost use Rattle.layout.specs.Cells.{sizes_of};

use command::CABINETS;
use plan::Plan;
use state::Sizes;
use stored::stored_at;

// How sizes, a record and a block stand in cells.
pub mod stored;

// Sizes that fit, as a type, and the places by them.
pub mod plan;

// A room as a type.
pub mod rooms;

// The cell of the off marks, the first cell of the limits, and that of slot 0.
pub const OFF: usize = 3;

pub const LIMITS: usize = 4;

pub const BASE: usize = LIMITS + CABINETS;

// The cells of the sizes, of a server record and of a block.
pub const SIZES_CELLS: usize = 3;

pub const SERVER_CELLS: usize = 11;

pub const BLOCK_CELLS: usize = 4;

// The cells of the largest room. `as` keeps the numbers: std has no From of a u32 for a usize.
pub const LONGEST_ROOM: usize = BASE
    + Sizes::LARGEST.slots as usize
        * (SERVER_CELLS * Sizes::LARGEST.servers as usize
            + BLOCK_CELLS * (Sizes::LARGEST.drives * Sizes::LARGEST.servers) as usize);

// Whether the sizes are those of a room.
#[tactic(auto, unfolding(crate::specs::Places::sizes_fit))]
pub fn sizes_fit(z: Sizes) -> bool
    ensures { result ≡ sizes_fit z }
{
    (1..=Sizes::LARGEST.servers).contains(&z.servers)
        && (1..=Sizes::LARGEST.drives).contains(&z.drives)
        && (1..=Sizes::LARGEST.slots).contains(&z.slots)
}

// The sizes that a row claims whose head is there.
pub fn sizes(room: &[u32]) -> Sizes
    requires { base ≤ length room.now }
    ensures { result ≡ sizes_of room.now }
{
    stored_at(room, 0)
}

// The cells of a room of these sizes, and 0 where they do not fit.
// A number and no Option: C takes it, and a public function that could not fail still cannot.
#[tactic(auto, using(crate::proofs::PlaceLaws::fit_of, crate::proofs::PlaceLaws::room_bound))]
pub fn length_of(z: Sizes) -> usize
    ensures { (result ≡ length_of z) × (result ≤ longest_room) }
{
    Plan::of(z).map_or(0, |plan| plan.room_length())
}

// The first cell of the record of a server in a slot, and 0 where a room of these sizes has no such place.
// A number and no Option, as in `length_of`.
#[tactic(auto, using(crate::proofs::PlaceLaws::has_record_lem, crate::proofs::PlaceLaws::server_within, crate::proofs::PlaceLaws::room_bound))]
pub fn server_place(z: Sizes, server: u32, slot: u32) -> usize
    ensures { (result ≡ server_place z server slot) × (result ≤ longest_room) }
{
    match Plan::of(z) {
        Some(plan) if z.has_slot(server, slot) => plan.server_at(slot, server),
        _ => 0,
    }
}

// The first cell of the server's block on a drive there, and 0 likewise.
// A number and no Option, as in `length_of`.
#[tactic(auto, using(crate::proofs::PlaceLaws::has_record_lem, crate::proofs::PlaceLaws::block_within, crate::proofs::PlaceLaws::room_bound))]
pub fn block_place(z: Sizes, server: u32, slot: u32, drive: u32) -> usize
    ensures { (result ≡ block_place z server slot drive) × (result ≤ longest_room) }
{
    match Plan::of(z) {
        Some(plan) if z.has_slot(server, slot) && z.has_drive(drive) => {
            plan.block_at(slot, drive, server)
        }
        _ => 0,
    }
}
