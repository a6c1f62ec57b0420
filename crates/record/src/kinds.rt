// The ten kinds of step: the number of each, the fields that it has, and its step.
ghost use Rattle.std.specs.Prelude.{◌≡◌};
ghost use Rattle.record.specs.Fields.{fields, mask_of, step_of, values_of, with_values};
ghost use Rattle.record.specs.Kinds.{kind_number, IsKind};

use crate::fields::Fields;
use crate::map::Map;
use checks::Refusal;
use state::Step;

// A kind by its number in a record.
#[derive(Clone, Copy, Debug, PartialEq, Eq)]
pub(crate) enum Kind {
    Offer = 1,
    Recall = 2,
    Rejoin = 3,
    Bid = 4,
    Write = 5,
    Read = 6,
    Finish = 7,
    Fail = 8,
    DriveOff = 9,
    DriveOn = 10,
}

// By the kind byte of a record.
impl TryFrom<u8> for Kind {
    type Error = Refusal;

    ghost try_from_gives = { IsKind };

    fn try_from(number: u8) -> Result<Self, Refusal> {
        match number {
            1 => Ok(Kind::Offer),
            2 => Ok(Kind::Recall),
            3 => Ok(Kind::Rejoin),
            4 => Ok(Kind::Bid),
            5 => Ok(Kind::Write),
            6 => Ok(Kind::Read),
            7 => Ok(Kind::Finish),
            8 => Ok(Kind::Fail),
            9 => Ok(Kind::DriveOff),
            10 => Ok(Kind::DriveOn),
            _ => Err(Refusal::Malformed),
        }
    }
}

impl Kind {
    // The map of all the fields that the kind has.
    #[tactic(auto, unfolding(crate::specs::Fields::mask_of))]
    pub(crate) fn mask(self) -> Map
        ensures { result ≡ mask_of (kind_number self) }
    {
        match self {
            Kind::Offer | Kind::Rejoin | Kind::Bid => Map::WITH_NUMBER,
            Kind::Recall | Kind::Write => Map::WITH_DRIVE,
            Kind::Read => Map::WITH_OTHER,
            Kind::Finish => Map::AT_SLOT,
            Kind::Fail => Map::SERVER,
            Kind::DriveOff | Kind::DriveOn => Map::DRIVE,
        }
    }

    // The kind's number with these fields. `as` gives an enum's number, for which std has no From.
    pub(crate) fn fields(self, server: u8, slot: u8, drive: u8, other: u8, number: u32) -> Fields
        ensures { result ≡ fields (kind_number self) server slot drive other number }
    {
        Fields::new(self as u8, server, slot, drive, other, number)
    }

    // The step of the kind with these fields; a field that the kind lacks is not looked at.
    #[tactic(auto, unfolding(crate::specs::Fields::step_of))]
    pub(crate) fn step(self, f: Fields) -> Step
        ensures { result ≡ step_of (with_values (kind_number self) (values_of f)) }
    {
        match self {
            Kind::Offer => Step::Offer(f.server, f.slot, f.number),
            Kind::Recall => Step::Recall(f.server, f.slot, f.drive),
            Kind::Rejoin => Step::Rejoin(f.server, f.slot, f.number),
            Kind::Bid => Step::Bid(f.server, f.slot, f.number),
            Kind::Write => Step::Write(f.server, f.slot, f.drive),
            Kind::Read => Step::Read(f.server, f.slot, f.drive, f.other),
            Kind::Finish => Step::Finish(f.server, f.slot),
            Kind::Fail => Step::Fail(f.server),
            Kind::DriveOff => Step::DriveOff(f.drive),
            Kind::DriveOn => Step::DriveOn(f.drive),
        }
    }
}
