// Asking for the lowest slot that is free for a server.
ghost use Rattle.std.specs.Prelude.{◌≡◌, ◌<◌};
ghost use Rattle.free_slots.specs.Ask.{first_free, asked};

use checks::Refusal;
use layout::rooms::Room;

// The lowest slot that is free for the server; no cell changes. Refused with 3 where the row is no room in range, with 4
// where the server is beyond the room, and with 17 where no slot is free for it.
#[tactic(auto, unfolding(checks::specs::Checks::must, crate::specs::Ask::asked, crate::specs::Ask::ask_checks))]
pub fn ask(room: &[u32], server: u32) -> Result<u32, Refusal>
    ensures { result ≡ asked room.now server }
{
    let room = range::room_in(room)?;
    if !room.sizes.has_server(server) {
        return Err(Refusal::BeyondRoom);
    }
    first_free(&room, server).ok_or(Refusal::NoSlotFree)
}

// The lowest slot that is free for server p.
fn first_free(room: &Room, p: u32) -> Option<u32>
    requires { p < room.now.sizes.servers }
    ensures { result ≡ first_free room.now.sizes room.now.cells.now p }
{
    (0..room.sizes.slots).find(|&s| room.server(s, p).is_free())
}
