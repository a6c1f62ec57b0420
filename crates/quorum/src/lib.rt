// Marks in a 32-bit cell, and which marked sets of drives are a majority.
#![tactic(auto)]

ghost use Rattle.std.specs.Prelude.{◌≡◌, ℕ, Bool, min, ◌%◌, ◌^◌};
ghost use Rattle.quorum.specs.Marks.{stands, marked, unmarked};
ghost use Rattle.quorum.specs.Sets.{gathered, majority, within, Tells};

// Whether bit i of a mark cell stands. A cell has no bit 32 or above.
#[tactic(auto, using(crate::proofs::MarkLaws::stands_beyond), unfolding(crate::specs::Marks::stands))]
pub fn has_mark(marks: u32, i: u32) -> bool
    ensures { result ≡ stands marks i }
{
    i < 32 && (marks >> i) % 2 == 1
}

// The cell with bit i set.
#[tactic(auto, using(crate::proofs::MarkLaws::or_marks, crate::proofs::Shift::one_shifted, crate::proofs::MarkLaws::marked_out))]
pub fn with_mark(marks: u32, i: u32) -> u32
    ensures { result ≡ marked marks i }
{
    if i < 32 { marks | (1 << i) } else { marks }
}

// The cell with bit i removed.
#[tactic(auto, using(crate::proofs::MarkLaws::low_bit, crate::proofs::MarkLaws::at_least, crate::proofs::MarkLaws::unmarked_old, crate::proofs::MarkLaws::unmarked_none, crate::proofs::Shift::one_shifted))]
pub fn without_mark(marks: u32, i: u32) -> u32
    ensures { result ≡ unmarked marks i }
{
    if has_mark(marks, i) {
        marks - (1 << i)
    } else {
        marks
    }
}

// The marks of those of the drives that pass the test. A cell has no bit 32 or above.
pub fn gather<F: Fn(u32) -> bool>(drives: u32, test: F) -> u32
    requires { F.IsAlwaysCallable test }
    ensures { (set : ℕ → Bool) → Tells (F.post test) set → result ≡ gathered (min drives 32) set }
{
    let mut marks = 0;
    for d in 0..drives.min(32) {
        if test(d) {
            marks = with_mark(marks, d);
        }
    }
    marks
}

// The marks of the drives that exist.
#[tactic(auto, using(crate::proofs::Shift::one_shifted, crate::proofs::Shift::whole_cell))]
fn existing(drives: u32, marks: u32) -> u32
    ensures { result ≡ marks % 2 ^ drives }
{
    if drives < 32 {
        marks % (1 << drives)
    } else {
        marks
    }
}

// Whether the drives whose bit stands, of those that exist, are a majority of them. Drive 0 decides a tie.
#[tactic(auto, using(crate::proofs::Majorities::few, crate::proofs::Majorities::apart, crate::proofs::Majorities::tie))]
pub fn is_majority(drives: u32, marks: u32) -> bool
    ensures { result ≡ majority drives (stands marks) }
{
    let counted = existing(drives, marks);
    let twice = 2 * counted.count_ones();
    if drives == twice {
        has_mark(counted, 0)
    } else {
        drives < twice
    }
}

// Whether no mark stands but those that stand in the cell of legal marks: one operation for the whole cell.
#[tactic(auto, using(crate::proofs::MaskLaws::mask_judges))]
pub fn only_legal(marks: u32, legal: u32) -> bool
    ensures { result ≡ within marks legal }
{
    (marks | legal) == legal
}
