ghost use Rattle.std.specs.Prelude.{◌≡◌, ◌<◌, is_some, IfSome};
ghost use Rattle.layout.specs.Places.{Fit, sizes_fit, slot_length, room_length, server_at, block_at};

use crate::{BASE, BLOCK_CELLS, SERVER_CELLS, sizes_fit};
use state::Sizes;

// The sizes of a room, which fit.
#[derive(Clone, Copy)]
pub struct Plan {
    pub sizes: Sizes,
    ghost fit: { Fit sizes },
}

// `as` keeps the number: std has no From of a u32 for a usize. That a place is in the room is a clause of each method: as a type
// it would carry sizes, and still ask that they are these.
impl Plan {
    // The plan of a room of these sizes, where there is one.
    #[tactic(auto, using(crate::proofs::PlaceLaws::fit_of))]
    pub fn of(sizes: Sizes) -> Option<Plan>
        ensures fits { is_some result ≡ sizes_fit sizes }
        ensures sizes { IfSome result (λ plan. plan.sizes ≡ sizes) }
    {
        if sizes_fit(sizes) {
            Some(Plan { sizes })
        } else {
            None
        }
    }

    // The cells of a slot.
    #[tactic(auto, using(crate::proofs::PlaceLaws::blocks_bound), unfolding(crate::specs::Places::slot_length))]
    pub fn slot_length(self) -> usize
        ensures { result ≡ slot_length self.sizes }
    {
        let z = self.sizes;
        SERVER_CELLS * (z.servers as usize)
            + BLOCK_CELLS * ((z.drives as usize) * (z.servers as usize))
    }

    // The cells of a room.
    #[tactic(auto, using(crate::proofs::PlaceLaws::slots_small), unfolding(crate::specs::Places::room_length))]
    pub fn room_length(self) -> usize
        ensures { result ≡ room_length self.sizes }
    {
        BASE + (self.sizes.slots as usize) * self.slot_length()
    }

    // Where the record of server p in slot s begins.
    #[tactic(auto, using(crate::proofs::PlaceLaws::slots_small), unfolding(crate::specs::Places::server_at, crate::specs::Places::slot_at))]
    pub fn server_at(self, s: u32, p: u32) -> usize
        requires { (s < self.sizes.slots) × (p < self.sizes.servers) }
        ensures { result ≡ server_at self.sizes s p }
    {
        BASE + (s as usize) * self.slot_length() + SERVER_CELLS * (p as usize)
    }

    // Where server p's block on drive d in slot s begins.
    #[tactic(auto, using(crate::proofs::PlaceLaws::slots_small, crate::proofs::PlaceLaws::nth_small), unfolding(crate::specs::Places::block_at, crate::specs::Places::nth_block_at, crate::specs::Places::slot_at))]
    pub fn block_at(self, s: u32, d: u32, p: u32) -> usize
        requires { (s < self.sizes.slots) × (d < self.sizes.drives) × (p < self.sizes.servers) }
        ensures { result ≡ block_at self.sizes s d p }
    {
        let servers = self.sizes.servers as usize;
        let nth = (d as usize) * servers + (p as usize);
        BASE + (s as usize) * self.slot_length() + SERVER_CELLS * servers + BLOCK_CELLS * nth
    }
}
