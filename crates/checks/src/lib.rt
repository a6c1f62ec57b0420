// How a call judges its input: checks in their order, each with the refusal that it brings.
#![tactic(auto)]

ghost use Rattle.std.specs.Prelude.{◌≡◌};
ghost use Rattle.checks.specs.Refusals.{refusal_number};

// Why a call refuses its input (SPEC, "Who can bring which number"), with its number.
#[derive(Clone, Copy, PartialEq, Eq)]
pub enum Refusal {
    // Servers, drives or slots outside their range.
    SizesUnfit = 1,
    // A lent length is wrong.
    WrongLength = 2,
    // The row is no room in range, or a catalogue has a cell above 256.
    OutOfRange = 3,
    // A server, slot, drive or other server beyond the room, or the other is the server itself.
    BeyondRoom = 4,
    // Not a command.
    NoCommand = 5,
    // The ballot is 0, above the limit or another server's.
    NotOwnBallot = 6,
    // Wrong phase.
    WrongPhase = 7,
    // The drive is off.
    DriveIsOff = 8,
    // The drive was not written in this phase.
    NotWritten = 9,
    // No majority.
    NoMajority = 10,
    // The ballot is not above top or the own mbal.
    BallotTooLow = 11,
    // Nothing to try.
    NothingToTry = 12,
    // Outbid, and no own ballot is left.
    BallotsSpent = 13,
    // The bytes are cut short.
    CutShort = 14,
    // The bytes are malformed.
    Malformed = 15,
    // The slot is not free for the server.
    SlotNotFree = 16,
    // No slot is free for the server.
    NoSlotFree = 17,
    // A limit of a cabinet outside 1 to 255.
    LimitsUnfit = 18,
    // The drives that are on are no majority.
    OnDrivesTooFew = 19,
}

impl Refusal {
    // The number of the refusal. `as` gives an enum's number, for which std has no From.
    pub fn number(self) -> u32
        ensures { result ≡ refusal_number self }
    {
        self as u32
    }
}
