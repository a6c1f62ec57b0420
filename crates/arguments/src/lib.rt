// Whether the numbers of a step fit the room: refusals 4 and 5.
#![tactic(auto)]

ghost use Rattle.std.specs.Prelude.{◌≡◌};
ghost use Rattle.synod.specs.Arguments.{places_fit, command_fits};

use command::Limits;
use state::{Sizes, Step};

// Whether every place that the step names is in the room, by the kind as in `room::effect::rule`.
#[tactic(auto, unfolding(synod::specs::Arguments::places_fit))]
pub fn places_fit(z: Sizes, step: Step) -> bool
    ensures { result ≡ places_fit z step }
{
    match step {
        Step::Offer(server, slot, _)
        | Step::Rejoin(server, slot, _)
        | Step::Bid(server, slot, _)
        | Step::Finish(server, slot) => z.has_slot(server.into(), slot.into()),
        Step::Recall(server, slot, drive) | Step::Write(server, slot, drive) => {
            z.has_slot(server.into(), slot.into()) && z.has_drive(drive.into())
        }
        Step::Read(server, slot, drive, other) => {
            z.has_slot(server.into(), slot.into())
                && z.has_drive(drive.into())
                && z.has_server(other.into())
                && other != server
        }
        Step::Fail(server) => z.has_server(server.into()),
        Step::DriveOff(drive) | Step::DriveOn(drive) => z.has_drive(drive.into()),
    }
}

// Whether the command that the step offers, if it offers one, is a command by the limits given.
#[tactic(auto, unfolding(synod::specs::Arguments::command_fits))]
pub fn command_fits(limits: &Limits, step: Step) -> bool
    ensures { result ≡ command_fits limits.now.0 step }
{
    match step {
        Step::Offer(_, _, command) => limits.is_command(command),
        _ => true,
    }
}
