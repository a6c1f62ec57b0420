// How an answer is one number for C: a word in the upper half of 64 bits, a number in the lower. The libraries `register_c`
// and `printing_c` pack their answers by these.
#![tactic(auto)]

ghost use Rattle.std.specs.Prelude.{◌≡◌};
ghost use Rattle.packing.specs.Packing.{packed, packed_number};

use checks::Refusal;

// The word of a call that is refused.
const REFUSED: u32 = 4;

// The answer of a call that gives a number: that number, or the refusal.
pub fn word(answer: Result<u64, Refusal>) -> u64
    ensures { result ≡ packed_number answer }
{
    answer.unwrap_or_else(|refusal| pack(REFUSED, refusal.number()))
}

// The word in the upper half, the number in the lower.
pub fn pack(word: u32, number: u32) -> u64
    ensures { result ≡ packed word number }
{
    u64::from(word) * (1 << 32) + u64::from(number)
}
