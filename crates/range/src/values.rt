// Values, and a block with its values: each is 0 or a command, by the table of the room's limits.
ghost use Rattle.std.specs.Prelude.{◌≡◌, true, ◌&&◌};
ghost use Rattle.command.specs.Tops.{value_by};
ghost use Rattle.range.specs.Range.{ballots_fit, values_fit, block_fits};

use command::Tops;
use state::{Block, Server};

// The values of a server record. Until the server meets a larger bal, its seeninp is its inp; and where its own ballot
// settled the slot, so is what was agreed.
#[tactic(auto, using(crate::proofs::Together::all_zero))]
pub(crate) fn own_values_fit(tops: &Tops, v: Server) -> bool
    ensures { result ≡ (value_by tops.now.0 v.inp && value_by tops.now.0 v.offer && value_by tops.now.0 v.seeninp && value_by tops.now.0 v.agreed) }
{
    // All four together, as most servers hold none.
    if (v.inp | v.offer | v.seeninp | v.agreed) == 0 {
        return true;
    }
    tops.is_value(v.inp)
        && tops.is_value(v.offer)
        && value_beside(tops, v.inp, v.seeninp)
        && value_beside(tops, v.inp, v.agreed)
}

// A value beside one that was judged: often it is the same, which needs no look at the table.
pub(crate) fn value_beside(tops: &Tops, judged: u32, v: u32) -> bool
    requires { value_by tops.now.0 judged ≡ true }
    ensures { result ≡ value_by tops.now.0 v }
{
    v == judged || tops.is_value(v)
}

// One block.
#[tactic(auto, unfolding(crate::specs::Range::block_fits))]
pub(crate) fn block_fits(tops: &Tops, b: Block) -> bool
    ensures { result ≡ block_fits (value_by tops.now.0) b }
{
    ballots_fit(b) && values_fit(tops, b)
}

pub(crate) fn ballots_fit(b: Block) -> bool
    ensures { result ≡ ballots_fit b }
{
    Block::ballot_fits(b.mbal) & Block::ballot_fits(b.bal)
}

// The values of a block. Mostly there is no done, or it is the inp. It shares only `value_beside` with a server record, which
// has an offer beside no other value: a list of the values beside the inp would be longer than the two expressions.
pub(crate) fn values_fit(tops: &Tops, b: Block) -> bool
    ensures { result ≡ values_fit (value_by tops.now.0) b }
{
    tops.is_value(b.inp) && value_beside(tops, b.inp, b.done)
}
