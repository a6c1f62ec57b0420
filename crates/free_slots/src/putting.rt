// Putting a command into a slot that is free for a server.
ghost use Rattle.std.specs.Prelude.{◌≡◌};
ghost use Rattle.synod.specs.Rules.{ruling};
ghost use Rattle.free_slots.specs.Put.{put_rule, put_answered, put_cells};

use checks::Refusal;
use layout::rooms::RoomMut;
use state::Answer;
use synod::Ruling;

// Offers the command, as the step Offer does, where the slot is free for the server. Refused with 3 where the row is no room
// in range, with 4 where the server or the slot is beyond the room, with 5 where the number is no command, and with 16 where
// the slot is not free; then no cell changes.
#[tactic(auto, using(crate::proofs::PutLaws::put_placed), unfolding(crate::specs::Put::put_answered, crate::specs::Put::put_cells, crate::specs::Put::put_judged, room::specs::Step::settled))]
pub fn put(room: &mut [u32], server: u32, slot: u32, command: u32) -> Result<Answer, Refusal>
    ensures { (result ≡ put_answered room.old server slot command)
        × (room.new ≡ put_cells room.old server slot command) }
{
    let (record, answer) = judge_put(room, server, slot, command)?;
    let mut room = RoomMut::new(room);
    room.store_server(slot, server, record);
    Ok(answer)
}

// The checks of a Put, then the rule of Offer. Nothing is stored.
#[tactic(auto, unfolding(checks::specs::Checks::must, crate::specs::Put::put_rule, crate::specs::Ask::free_at))]
fn judge_put(room: &[u32], server: u32, slot: u32, command: u32) -> Ruling
    ensures { result ≡ ruling (put_rule room.now server slot command) }
{
    let room = range::room_in(room)?;
    if !room.sizes.has_slot(server, slot) {
        return Err(Refusal::BeyondRoom);
    }
    if !room.limits().is_command(command) {
        return Err(Refusal::NoCommand);
    }
    let own = room.server(slot, server);
    if !own.is_free() {
        return Err(Refusal::SlotNotFree);
    }
    rules::offer(own, command)
}
