// The records of an input, one after the other.
ghost use Rattle.std.specs.Prelude.{◌+◌, ◌/◌, length};
ghost use Rattle.std.specs.Iterator.{at_most};
ghost use Rattle.rehearsal.specs.Script.{NextRecord};

use register::{Refusal, Step};

// The bytes that are left. A record that can't be read is the last.
#[derive(Drop)]
pub struct Records<'a>(pub &'a [u8]);

impl<'a> Iterator for Records<'a> {
    type Item = Result<Step, Refusal>;

    ghost next_gives = { λ s r t. NextRecord s.0.now r t.0.now };

    // A record has two bytes at least, and one byte that is left is a record that can't be read.
    ghost remaining = { λ s. at_most ((length s.0.now + 1) / 2) };

    #[tactic(auto, using(crate::proofs::ScriptLaws::script_none, crate::proofs::ScriptLaws::script_empty, crate::proofs::ScriptLaws::script_behind, crate::proofs::ScriptLaws::script_stop, record::proofs::Accepted::used_bounds))]
    fn next(&mut self) -> Option<Result<Step, Refusal>> {
        if self.0.is_empty() {
            return None;
        }
        match register::read_record(self.0) {
            Ok((step, used)) => {
                self.0 = &self.0[used..];
                Some(Ok(step))
            }
            Err(refusal) => {
                self.0 = &[];
                Some(Err(refusal))
            }
        }
    }
}
