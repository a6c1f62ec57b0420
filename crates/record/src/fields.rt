// The fields of a step, whatever its kind.
ghost use Rattle.std.specs.Prelude.{◌≡◌};
ghost use Rattle.record.specs.Fields.{fields, fields_of, step_of};

use crate::kinds::Kind;
use state::Step;

// A step as numbers: the kind and the five fields, 0 where the kind has no such field. The kind is any byte,
// since C brings it.
#[derive(Clone, Copy)]
pub struct Fields {
    pub kind: u8,
    pub server: u8,
    pub slot: u8,
    pub drive: u8,
    pub other: u8,
    pub number: u32,
}

impl Fields {
    pub fn new(kind: u8, server: u8, slot: u8, drive: u8, other: u8, number: u32) -> Self
        ensures { result ≡ fields kind server slot drive other number }
    {
        Self {
            kind,
            server,
            slot,
            drive,
            other,
            number,
        }
    }
}

// The kind and the fields of a step, by its kind as in `room::effect::rule`.
impl From<Step> for Fields {
    ghost from_gives = { λ step f. f ≡ fields_of step };

    fn from(step: Step) -> Self {
        match step {
            Step::Offer(server, slot, command) => Kind::Offer.fields(server, slot, 0, 0, command),
            Step::Recall(server, slot, drive) => Kind::Recall.fields(server, slot, drive, 0, 0),
            Step::Rejoin(server, slot, ballot) => Kind::Rejoin.fields(server, slot, 0, 0, ballot),
            Step::Bid(server, slot, ballot) => Kind::Bid.fields(server, slot, 0, 0, ballot),
            Step::Write(server, slot, drive) => Kind::Write.fields(server, slot, drive, 0, 0),
            Step::Read(server, slot, drive, other) => Kind::Read.fields(
                server, slot, drive, other, 0,
            ),
            Step::Finish(server, slot) => Kind::Finish.fields(server, slot, 0, 0, 0),
            Step::Fail(server) => Kind::Fail.fields(server, 0, 0, 0, 0),
            Step::DriveOff(drive) => Kind::DriveOff.fields(0, 0, drive, 0, 0),
            Step::DriveOn(drive) => Kind::DriveOn.fields(0, 0, drive, 0, 0),
        }
    }
}

// The step of a kind from 1 to 10 with these fields; a field that the kind lacks is not looked at. It cannot fail:
// another number counts as 10.
#[tactic(auto, using(crate::proofs::Steps::step_unknown))]
impl From<Fields> for Step {
    ghost from_gives = { λ f step. step ≡ step_of f };

    fn from(f: Fields) -> Self {
        Kind::try_from(f.kind).unwrap_or(Kind::DriveOn).step(f)
    }
}
