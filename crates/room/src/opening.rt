// Opening a room in a lent row.
ghost use Rattle.std.specs.Prelude.{◌≡◌};
ghost use Rattle.room.specs.Open.{opening, opened};

use checks::Refusal;
use command::Limits;
use layout::LIMITS;
use layout::plan::Plan;
use layout::stored::store_at;
use state::Sizes;

// Makes the row a room of these sizes and limits, with every other cell 0. Refused with 1 where the sizes do not fit, with 2
// where the row is not exactly as long as the room, and with 18 where a limit is no hoard; then no cell changes.
#[tactic(auto, using(layout::proofs::PlaceLaws::base_room, crate::proofs::OpenLaws::cleared_room), unfolding(crate::specs::Open::opening, crate::specs::Open::opened, crate::specs::Open::open_checks, checks::specs::Checks::must))]
pub fn open(row: &mut [u32], z: Sizes, limits: Limits) -> Result<(), Refusal>
    ensures { (result ≡ opening z limits.0 row.old) × (row.new ≡ opened z limits.0 row.old) }
{
    let plan = Plan::of(z).ok_or(Refusal::SizesUnfit)?;
    if row.len() != plan.room_length() {
        return Err(Refusal::WrongLength);
    }
    if !limits.fit() {
        return Err(Refusal::LimitsUnfit);
    }
    row.fill(0);
    store_at(row, 0, z);
    store_at(row, LIMITS, limits);
    Ok(())
}
