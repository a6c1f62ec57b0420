// Commands: whether a 32-bit number is one, and its kind, piece and hoard.
#![tactic(auto)]

ghost use Rattle.std.specs.Prelude.{◌≡◌};
ghost use Rattle.command.specs.Command.{kind_of, piece_of, hoard_of, is_command, limits_fit, cabinet_limits};
ghost use Rattle.command.specs.Tops.{byte_of, tops_of, value_by};

use kinds::Kind;

// The kinds of command, as an enum.
pub mod kinds;

// There are the pieces 0 to 63.
pub const PIECES: u32 = 64;

// The least strike. The table ends below it.
const STRIKES: u32 = 196608;

// The number of the kind: 1 enter, 2 move, 3 strike. A number, since every v has one and not each names a kind, which is what
// `Kind::try_from` says.
pub fn kind(v: u32) -> u32
    ensures { result ≡ kind_of v }
{
    v / 65536
}

pub fn piece(v: u32) -> u32
    ensures { result ≡ piece_of v }
{
    v / 256 % 256
}

pub fn hoard(v: u32) -> u32
    ensures { result ≡ hoard_of v }
{
    v % 256
}

// There are eight cabinets.
pub const CABINETS: usize = 8;

// The largest hoard of each cabinet. Any numbers, since they come from a caller or from cells: `fit` judges them.
#[derive(Clone, Copy)]
pub struct Limits(pub [u32; CABINETS]);

impl Limits {
    // 01's limits of cabinets 0 to 7.
    pub fn of_cabinets() -> Limits
        ensures { result.0 ≡ cabinet_limits }
    {
        Limits([255, 255, 200, 200, 120, 120, 60, 60])
    }

    // Whether a room may have them: each is a hoard, 1 to 255.
    #[tactic(auto, unfolding(crate::specs::Command::limits_fit))]
    pub fn fit(&self) -> bool
        ensures { result ≡ limits_fit self.now.0 }
    {
        self.0.iter().all(|limit| (1..=255).contains(limit))
    }

    // Whether v is a command where each cabinet has its limit.
    #[tactic(auto, unfolding(crate::specs::Command::is_command, crate::specs::Command::hoard_fits, crate::specs::Command::limit_of))]
    pub fn is_command(&self, v: u32) -> bool
        ensures { result ≡ is_command self.now.0 v }
    {
        // `as` keeps the number, as in `Tops::is_value`.
        let piece = piece(v);
        let hoard = hoard(v);
        if PIECES <= piece {
            return false;
        }
        match Kind::try_from(kind(v)) {
            Ok(Kind::Enter | Kind::Move) => (1..=self.0[piece as usize / 8]).contains(&hoard),
            Ok(Kind::Strike) => hoard == 0,
            Err(_) => false,
        }
    }

    // The table by these limits. Made once for a call.
    #[tactic(auto, using(crate::proofs::TopLaws::tops_more, crate::proofs::TopLaws::tops_all), unfolding(crate::proofs::TopLaws::tops_after))]
    pub fn tops(&self) -> Tops
        ensures { result.0 ≡ tops_of self.now.0 }
    {
        let mut tops = [0; 96];
        for (i, limit) in self.0.iter().enumerate() {
            let top = byte(*limit);
            tops[32 + i] = top;
            tops[64 + i] = top;
        }
        Tops(tops)
    }
}

// A limit as far as a hoard can reach it.
fn byte(limit: u32) -> u8
    ensures { result ≡ byte_of limit }
{
    u8::try_from(limit).unwrap_or(u8::MAX)
}

// The table by which all cells of a room are judged: the largest hoard of enter and of move by kind and cabinet, that is
// at v / 2048, and 0 where there is no such command.
#[derive(Clone, Copy)]
pub struct Tops(pub [u8; 96]);

impl Tops {
    // Whether v is 0 or a command, by one look into the table. v / 16384 is four times the kind, and more where the piece is
    // too large, so 12 is a strike of a piece. By numbers, which index the table: a kind would be looked up for each cell.
    #[tactic(auto, unfolding(crate::specs::Tops::value_by))]
    pub fn is_value(&self, v: u32) -> bool
        ensures { result ≡ value_by self.now.0 v }
    {
        if v == 0 {
            return true;
        }
        // `as` keeps these numbers: the first is a byte, and std has no From of a u32 for a usize.
        let hoard = hoard(v) as u8;
        if STRIKES <= v {
            return (hoard == 0) & (v / 16384 == 12);
        }
        let top = self.0[(v / 2048) as usize];
        (1 <= hoard) & (hoard <= top)
    }
}
