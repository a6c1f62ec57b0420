// The least own ballot by itself as an exported function, so that it is timed alone and compared for every ballot found.
// The register's own calls are in register_c.
#![tactic(auto)]

ghost use Rattle.std.specs.Prelude.{◌≡◌};
ghost use Rattle.ballot.specs.Ballot.{next_own};
ghost use Rattle.ballot_c.specs.Number.{ballot_or_zero};

use ballot::Owner;

// The server's least ballot above the one found, 0 where none is left.
#[unsafe(no_mangle)]
pub extern "C" fn ballot_next(servers: u32, server: u32, found: u32) -> u32
    ensures { result ≡ ballot_or_zero (next_own servers server found) }
{
    Owner { servers, server }.next_own(found).unwrap_or(0)
}
