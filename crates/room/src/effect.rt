// What a step would answer and store.
ghost use Rattle.std.specs.Prelude.{◌≡◌, ◌<◌, true};
ghost use Rattle.synod.specs.Arguments.{places_fit};
ghost use Rattle.checks.specs.Checks.{mapped};
ghost use Rattle.range.specs.Range.{in_range};
ghost use Rattle.layout.specs.Cells.{off_of, server_of};
ghost use Rattle.room.specs.Judge.{recording, effect_of, judged, answer_of};

use checks::Refusal;
use drives::Acting;
use layout::rooms::Room;
use quorum::{with_mark, without_mark};
use state::{Answer, Server, Step};
use synod::Ruling;

// The places and values that an accepted step stores: a server's record, for Write its block too, a server's failure
// in every slot, or the off marks.
#[derive(Clone, Copy)]
pub enum Effect {
    Record {
        slot: u8,
        server: u8,
        record: Server,
        answer: Answer,
    },
    Block {
        slot: u8,
        drive: u8,
        server: u8,
        record: Server,
    },
    Failure {
        server: u8,
    },
    Off(u32),
}

impl Effect {
    // The answer that goes with the effect.
    pub fn answer(self) -> Answer
        ensures { result ≡ answer_of self }
    {
        match self {
            Effect::Record { answer, .. } => answer,
            Effect::Block { .. } | Effect::Failure { .. } | Effect::Off(_) => Answer::Done,
        }
    }
}

// Judges a step on a row: the room, the step's numbers, then the rule of its kind. Nothing is stored.
#[tactic(auto, using(crate::proofs::Checks::refused_3))]
pub fn judge(room: &[u32], step: Step) -> Result<Effect, Refusal>
    ensures { result ≡ judged room.now step }
{
    let room = range::room_in(room)?;
    judge_in(&room, step)
}

// Judges a step on a room that is known to be in range.
#[tactic(auto, using(crate::proofs::Checks::refused_4, crate::proofs::Checks::refused_5, crate::proofs::Checks::passed))]
pub fn judge_in(room: &Room, step: Step) -> Result<Effect, Refusal>
    requires { in_range room.now.cells.now ≡ true }
    ensures { result ≡ judged room.now.cells.now step }
{
    if !arguments::places_fit(room.sizes, step) {
        return Err(Refusal::BeyondRoom);
    }
    if !arguments::command_fits(&room.limits(), step) {
        return Err(Refusal::NoCommand);
    }
    rule(room, step)
}

// The rule of the step's kind, on the server and the block that it names. A match on the enum of steps is a form that the project
// prescribes.
#[tactic(auto, unfolding(crate::specs::Judge::effect_of, synod::specs::Rules::rule_of, synod::specs::Arguments::places_fit))]
fn rule(room: &Room, step: Step) -> Result<Effect, Refusal>
    requires { places_fit room.now.sizes step ≡ true }
    ensures { result ≡ effect_of room.now.sizes room.now.cells.now step }
{
    match step {
        Step::Offer(p, s, command) => recorded(
            s,
            p,
            rules::offer(room.server(s.into(), p.into()), command),
        ),
        Step::Recall(p, s, d) => {
            let b = room.block(s.into(), d.into(), p.into());
            recorded(s, p, rules::recall(acting(room, s, p), b, d))
        }
        Step::Rejoin(p, s, ballot) => recorded(s, p, rules::rejoin(acting(room, s, p), ballot)),
        Step::Bid(p, s, ballot) => recorded(s, p, rules::bid(acting(room, s, p), ballot)),
        Step::Write(p, s, d) => {
            let (record, _) = rules::write(acting(room, s, p), d)?;
            Ok(Effect::Block {
                slot: s,
                drive: d,
                server: p,
                record,
            })
        }
        Step::Read(p, s, d, q) => {
            let b = room.block(s.into(), d.into(), q.into());
            recorded(s, p, rules::read(acting(room, s, p), b, d, q))
        }
        Step::Finish(p, s) => recorded(s, p, rules::finish(acting(room, s, p))),
        Step::Fail(p) => Ok(Effect::Failure { server: p }),
        Step::DriveOff(d) => Ok(Effect::Off(with_mark(room.off(), d.into()))),
        Step::DriveOn(d) => Ok(Effect::Off(without_mark(room.off(), d.into()))),
    }
}

// Server p as it acts in slot s.
pub fn acting(room: &Room, s: u8, p: u8) -> Acting
    requires { (s < room.now.sizes.slots) × (p < room.now.sizes.servers) }
    ensures { (result.record ≡ server_of room.now.sizes room.now.cells.now s p) × (result.server ≡ p) × (result.sizes ≡ room.now.sizes) × (result.off ≡ off_of room.now.cells.now) }
{
    Acting {
        record: room.server(s.into(), p.into()),
        server: p,
        sizes: room.sizes,
        off: room.off(),
    }
}

// What is stored of a ruling on the record of a server in a slot.
fn recorded(slot: u8, server: u8, r: Ruling) -> Result<Effect, Refusal>
    ensures { result ≡ mapped (recording slot server) r }
{
    let (record, answer) = r?;
    Ok(Effect::Record {
        slot,
        server,
        record,
        answer,
    })
}
