// One step on a lent room.
ghost use Rattle.std.specs.Prelude.{◌≡◌, ◌<◌};
ghost use Rattle.layout.specs.Cells.{sizes_of};
ghost use Rattle.room.specs.ByNext.{answers, leaves, AnswersNext, LeavesNext};
ghost use Rattle.room.specs.Ready.{Ready};
ghost use Rattle.room.specs.Step.{failed_below, settled, answered, stepped};

use crate::effect::{Effect, judge};
use checks::Refusal;
use layout::rooms::RoomMut;
use state::{Answer, Step};

/// Takes the step on a lent room. Answers what its rule gives, or why it is refused; a refusal changes no cell.
///
/// Any row and any step may be passed. Refused are a row that is no room in range (3), a place beyond the room (4), what is no
/// command by the room's limits (5), and what the kind of the step refuses (6 to 13). What is answered and left is said twice: by the
/// cells, as `answered` and `stepped`, and by the room that the row is, as `answers` and `leaves`, which are what `next` gives.
#[tactic(auto, using(crate::proofs::ReadyLaws::judged_ready), unfolding(crate::specs::Step::answered, crate::specs::Step::stepped))]
pub fn step(room: &mut [u32], step: Step) -> Result<Answer, Refusal>
    ensures cells { (result ≡ answered room.old step) × (room.new ≡ stepped room.old step) }
    ensures next { (result ≡ answers room.old step) × (room.new ≡ leaves room.old step) }
{
    let e = judge(room, step)?;
    settle(room, e);
    Ok(e.answer())
}

// Stores what the effect says.
#[tactic(auto, using(crate::proofs::ReadyLaws::ready_row), unfolding(crate::specs::Step::settled))]
fn settle(room: &mut [u32], e: Effect)
    requires { Ready room.old e }
    ensures { room.new ≡ settled (sizes_of room.old) room.old e }
{
    let mut room = RoomMut::new(room);
    match e {
        Effect::Record {
            slot,
            server,
            record,
            answer: _,
        } => room.store_server(slot.into(), server.into(), record),
        Effect::Block {
            slot,
            drive,
            server,
            record,
        } => {
            room.store_server(slot.into(), server.into(), record);
            room.store_block(slot.into(), drive.into(), server.into(), record.own_block());
        }
        Effect::Failure { server } => fail(&mut room, server.into()),
        Effect::Off(marks) => room.store_off(marks),
    }
}

// Server p fails in every slot.
#[tactic(auto, unfolding(crate::specs::Step::failed_below))]
fn fail(room: &mut RoomMut, p: u32)
    requires { p < room.old.sizes.servers }
    ensures same_reference { room.new.cells.ghost_name ≡ room.old.cells.ghost_name }
    ensures cells { room.new.cells.now ≡ failed_below room.old.sizes p room.old.sizes.slots room.old.cells.now }
{
    for s in 0..room.sizes.slots {
        let v = room.as_room().server(s, p).failed();
        room.store_server(s, p, v);
    }
}

/// A step on a row is the step on its room: for every row and every step, `answered` is `answers`, and `stepped` is `leaves`.
#[tactic(auto, using(crate::proofs::Bridge::same_answer, crate::proofs::Bridge::same_cells))]
pub fn step_is_next()
    ensures answers { AnswersNext }
    ensures leaves { LeavesNext }
{}
