// The read marks, and which drives count for Rejoin and Finish, gathered as marks in a cell.
#![tactic(auto)]

ghost use Rattle.std.specs.Prelude.{◌≡◌};
ghost use Rattle.quorum.specs.Marks.{stands};
ghost use Rattle.quorum.specs.Sets.{gathered};
ghost use Rattle.synod.specs.Changes.{read_bit};
ghost use Rattle.synod.specs.Rules.{recalled_on, others_read, complete_on};

use ballot::Owner;
use quorum::{gather, has_mark};
use state::{Server, Sizes};

// The bit of server q's block on drive d in the read marks.
pub fn read_bit(d: u8, q: u8) -> u32
    ensures { result ≡ read_bit d q }
{
    4 * u32::from(d) + u32::from(q)
}

// The server that a step names: its record in the slot and its number, in a room of these sizes with these drives off.
#[derive(Clone, Copy)]
pub struct Acting {
    pub record: Server,
    pub server: u8,
    pub sizes: Sizes,
    pub off: u32,
}

impl Acting {
    // The server as the owner of its ballots.
    pub fn owner(self) -> Owner
        ensures { (result.servers ≡ self.sizes.servers) × (result.server ≡ self.server) }
    {
        Owner {
            servers: self.sizes.servers,
            server: self.server.into(),
        }
    }

    // Whether the drive is off.
    pub fn has_off(self, d: u8) -> bool
        ensures { result ≡ stands self.off d }
    {
        has_mark(self.off, d.into())
    }

    // The drives on which the server's own block was recalled.
    pub fn recalled(self) -> u32
        ensures { result ≡ gathered self.sizes.drives (recalled_on self.record self.server) }
    {
        gather(self.sizes.drives, |d| self.was_read(d, self.server.into()))
    }

    // The drives written with every other server's block read there.
    pub fn complete(self) -> u32
        ensures { result ≡ gathered self.sizes.drives (complete_on self.sizes.servers self.record self.server) }
    {
        gather(self.sizes.drives, |d| {
            has_mark(self.record.written, d) && self.others_read(d)
        })
    }

    // Whether every other server's block on drive d is marked as read.
    fn others_read(self, d: u32) -> bool
        ensures { result ≡ others_read self.sizes.servers self.record self.server d }
    {
        (0..self.sizes.servers).all(|q| q == u32::from(self.server) || self.was_read(d, q))
    }

    // Whether server q's block on drive d is marked as read. The marks are a cell, which has no bit 32 or above: both numbers are
    // below 32 where they are made bytes.
    #[tactic(auto, using(quorum::proofs::MarkLaws::stands_beyond))]
    pub fn was_read(self, d: u32, q: u32) -> bool
        ensures { result ≡ stands self.record.read (read_bit d q) }
    {
        d < 32 && q < 32 && has_mark(self.record.read, read_bit(d as u8, q as u8))
    }
}
