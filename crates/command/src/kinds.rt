ghost use Rattle.command.specs.Kinds.{IsKind};

// What a command does with its piece.
#[derive(Clone, Copy, Debug, PartialEq, Eq)]
pub enum Kind {
    Enter,
    Move,
    Strike,
}

// A number that names no kind.
#[derive(Clone, Copy, Debug, PartialEq, Eq)]
pub struct UnknownKind(pub u32);

// By the number that `kind` reads from a command.
impl TryFrom<u32> for Kind {
    type Error = UnknownKind;

    ghost try_from_gives = { IsKind };

    fn try_from(number: u32) -> Result<Self, UnknownKind> {
        match number {
            1 => Ok(Kind::Enter),
            2 => Ok(Kind::Move),
            3 => Ok(Kind::Strike),
            _ => Err(UnknownKind(number)),
        }
    }
}
