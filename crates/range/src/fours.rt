// Blocks four at a time: the back end compares four blocks as vectors. In most rooms most blocks of a slot are blank, or hold
// one value and no other, so that few are looked up in the table.
ghost use Rattle.std.specs.Prelude.{◌≡◌, true, Bool};
ghost use Rattle.std.specs.List.{list_all};
ghost use Rattle.command.specs.Tops.{value_by};
ghost use Rattle.state.specs.declared.Block.{Block};
ghost use Rattle.state.specs.Block.{blank, same_block};
ghost use Rattle.layout.specs.Cells.{block_in};
ghost use Rattle.range.specs.Range.{ballots_fit, values_fit, block_fits, every_block, every_pair, holds_only};

use crate::values::{ballots_fit, block_fits, values_fit};
use command::Tops;
use layout::BLOCK_CELLS;
use layout::stored::Stored;
use state::Block;

// The cells of four blocks that stand one after the other.
type Four = [[u32; BLOCK_CELLS]; 4];

// Every four of a slot. The table is a parameter here and in `values`, as what it judges has no other in common; and that a value
// is judged is a clause, since a type would have to carry the table.
pub(crate) fn fours_fit(tops: &Tops, fours: &[Four]) -> bool
    ensures { result ≡ list_all (every_block (block_fits (value_by tops.now.0))) fours.now }
{
    let Some(first) = fours.first() else {
        return true;
    };
    if all_blank(fours) {
        return true;
    }
    let v = common_value(tops, first);
    if four_hold(first, v) {
        return fours.iter().all(|four| four_with(tops, four, v));
    }
    // A server writes the same block to every drive, so the others are often the first four again.
    each(first, |b| block_fits(tops, b)) && fours.iter().all(|four| four_like(tops, first, four))
}

// A block by its cells.
pub(crate) fn block(cells: &[u32; BLOCK_CELLS]) -> Block
    ensures { result ≡ block_in cells.now 0 }
{
    Block::from_cells(*cells)
}

// Whether each block passes a test, one after the other.
pub(crate) fn each<F: Fn(Block) -> bool>(blocks: &[[u32; BLOCK_CELLS]], test: F) -> bool
    requires { F.IsAlwaysCallable test }
    ensures { (p : Block → Bool) → ((b : Block) (r : Bool) → F.post test b r → r ≡ p b) → result ≡ every_block p blocks.now }
{
    blocks.iter().all(|cells| test(block(cells)))
}

// Whether each of the four passes a test, with no branch between them, so that the back end makes vectors.
fn all_at_once<F: Fn(Block) -> bool>(four: &Four, test: F) -> bool
    requires { F.IsAlwaysCallable test }
    ensures { (p : Block → Bool) → ((b : Block) (r : Bool) → F.post test b r → r ≡ p b) → result ≡ every_block p four.now }
{
    four.iter()
        .fold(true, |all, cells| all & test(block(cells)))
}

// Whether no block of these fours was written.
fn all_blank(fours: &[Four]) -> bool
    ensures { result ≡ list_all (every_block (same_block blank)) fours.now }
{
    fours.iter().all(|four| four_blank(four))
}

fn four_blank(four: &Four) -> bool
    ensures { result ≡ every_block (same_block blank) four.now }
{
    all_at_once(four, |b| Block::BLANK.same(b))
}

// The value of four blocks that hold one and no other. Of others any value, here 0, and no Option: whether the blocks hold it is
// asked of the blocks.
#[tactic(auto, using(crate::proofs::Together::zero_by))]
fn common_value(tops: &Tops, four: &Four) -> u32
    ensures { value_by tops.now.0 result ≡ true }
{
    let v = four.iter().fold(0, |v, [_, _, inp, done]| v | inp | done);
    if tops.is_value(v) { v } else { 0 }
}

// Whether four blocks hold no value but v.
fn four_hold(four: &Four, v: u32) -> bool
    ensures { result ≡ every_block (holds_only v) four.now }
{
    all_at_once(four, |b| holds_only(v, b))
}

#[tactic(auto, unfolding(crate::specs::Range::holds_only))]
fn holds_only(v: u32, b: Block) -> bool
    ensures { result ≡ holds_only v b }
{
    ((b.inp == 0) | (b.inp == v)) & ((b.done == 0) | (b.done == v))
}

// Four blocks. Where they hold v and no other value, which is judged already, the table is not looked at.
fn four_with(tops: &Tops, four: &Four, v: u32) -> bool
    requires { value_by tops.now.0 v ≡ true }
    ensures { result ≡ every_block (block_fits (value_by tops.now.0)) four.now }
{
    if !all_at_once(four, ballots_fit) {
        return false;
    }
    if four_hold(four, v) {
        return true;
    }
    each(four, |b| values_fit(tops, b))
}

// Four blocks, beside four that are in range.
fn four_like(tops: &Tops, judged: &Four, four: &Four) -> bool
    requires { every_block (block_fits (value_by tops.now.0)) judged.now ≡ true }
    ensures { result ≡ every_block (block_fits (value_by tops.now.0)) four.now }
{
    four_same(judged, four) || each(four, |b| block_fits(tops, b))
}

// Whether two fours are alike, by pairs of blocks. `==` of the arrays stops at each cell, and a full room takes a fifth longer.
fn four_same(a: &Four, b: &Four) -> bool
    ensures { result ≡ every_pair same_block a.now b.now }
{
    a.iter()
        .zip(b.iter())
        .fold(true, |same, (x, y)| same & block(x).same(block(y)))
}
