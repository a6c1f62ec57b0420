// Ballots: who owns one, and a server's least ballot above one that it found.
#![tactic(auto)]

ghost use Rattle.std.specs.Prelude.{◌≡◌, true};
ghost use Rattle.ballot.specs.Ballot.{owned, askable, least_above, next_own};

use state::Block;

// A server as the owner of ballots: its number, and how many servers its room has.
#[derive(Clone, Copy)]
pub struct Owner {
    pub servers: u32,
    pub server: u32,
}

impl Owner {
    // Whether b is a ballot of the server.
    #[tactic(auto, unfolding(crate::specs::Ballot::owned))]
    pub fn is_own(self, b: u32) -> bool
        ensures { result ≡ owned self.servers self.server b }
    {
        let Owner {
            servers: n,
            server: p,
        } = self;
        p < n && 1 <= b && Block::ballot_fits(b) && (b - 1) % n == p
    }

    // The least ballot of the server above the one found; none where its ballots are spent.
    #[tactic(auto, unfolding(crate::specs::Ballot::next_own))]
    pub fn next_own(self, found: u32) -> Option<u32>
        ensures { result ≡ next_own self.servers self.server found }
    {
        if self.server < self.servers && self.servers <= 4 && Block::ballot_fits(found) {
            let least = self.least_above(found);
            if Block::ballot_fits(least) {
                return Some(least);
            }
        }
        None
    }

    // The least number above the one found that is the server's by its remainder. Nothing is divided by n, since a small board
    // divides slowly: a remainder by 3 is a multiplication, and one by 1, 2 or 4 is the low bits. What lies between is counted
    // back from the limit, a multiple of 4, or from two more, a multiple of 3; so no number on the way is above 1,000,004.
    #[tactic(auto, using(crate::proofs::Remainders::by_three, crate::proofs::Remainders::by_low_bits))]
    fn least_above(self, found: u32) -> u32
        requires { askable self.servers self.server found ≡ true }
        ensures { result ≡ least_above self.servers self.server found }
    {
        let Owner {
            servers: n,
            server: p,
        } = self;
        if n == 3 {
            return found + (Block::LIMIT + 2 - found + p) % 3 + 1;
        }
        found + ((Block::LIMIT - found + p) & (n - 1)) + 1
    }
}
