// What the algorithm is about, by value: a block, a server's record, a step, an answer.
#![tactic(auto)]

ghost use Rattle.std.specs.Prelude.{◌≡◌, ltb};
ghost use Rattle.state.specs.Sizes.{sizes, in_room, drive_fits};
ghost use Rattle.state.specs.Block.{ballot_fits, same_block, command_in};
ghost use Rattle.state.specs.Server.{with_own, with_agreed, cleared, failed, own_block, output_of, is_free};
ghost use Rattle.state.specs.Answers.{code_of, number_of};

use checks::Refusal;

// How many servers, drives and slots a room has.
#[derive(Clone, Copy)]
pub struct Sizes {
    pub servers: u32,
    pub drives: u32,
    pub slots: u32,
}

impl Sizes {
    // The sizes of the largest room.
    pub const LARGEST: Sizes = Sizes {
        servers: 4,
        drives: 7,
        slots: 16,
    };

    pub fn new(servers: u32, drives: u32, slots: u32) -> Self
        ensures { result ≡ sizes servers drives slots }
    {
        Self {
            servers,
            drives,
            slots,
        }
    }

    // Whether the room has the server.
    pub fn has_server(self, server: u32) -> bool
        ensures { result ≡ ltb server self.servers }
    {
        server < self.servers
    }

    // Whether the room has the server and the slot.
    pub fn has_slot(self, server: u32, slot: u32) -> bool
        ensures { result ≡ in_room self server slot }
    {
        self.has_server(server) && slot < self.slots
    }

    // Whether the room has the drive.
    pub fn has_drive(self, drive: u32) -> bool
        ensures { result ≡ drive_fits self drive }
    {
        drive < self.drives
    }
}

// The command that a cell holds; a cell with none holds 0.
pub fn command_in(cell: u32) -> Option<u32>
    ensures { result ≡ command_in cell }
{
    if cell == 0 { None } else { Some(cell) }
}

// What a server keeps on a drive: its current ballot, the last ballot in which its phase 2 began, the command tried in
// that one, and the command that the slot was settled with, where the server knew it when it wrote.
#[derive(Clone, Copy)]
pub struct Block {
    pub mbal: u32,
    pub bal: u32,
    pub inp: u32,
    pub done: u32,
}

impl Block {
    // Nothing was written yet.
    pub const BLANK: Block = Block {
        mbal: 0,
        bal: 0,
        inp: 0,
        done: 0,
    };
    // The largest ballot.
    pub const LIMIT: u32 = 1000000;

    // Whether a cell that holds a ballot may hold this number; 0 is none.
    pub fn ballot_fits(ballot: u32) -> bool
        ensures { result ≡ ballot_fits ballot }
    {
        ballot <= Block::LIMIT
    }

    // Whether the two blocks are equal. A derived `==` stops at the first cell that differs, and then no four blocks are compared
    // as vectors: to judge the largest room takes up to twice the time.
    #[tactic(auto, unfolding(crate::specs::Block::same_block))]
    pub fn same(self, other: Block) -> bool
        ensures { result ≡ same_block self other }
    {
        (self.mbal == other.mbal)
            & (self.bal == other.bal)
            & (self.inp == other.inp)
            & (self.done == other.done)
    }
}

// A server's record in one slot (SPEC, "The room in memory"). Seenbal and seeninp are the best bal met in this phase and its
// inp, top is the largest mbal recalled in phase 0, agreed is the command that the slot was settled with. Phase, 0 to 3, is
// no enum: the rules hold of whatever number stands in the lent cell, and an enum would ask callers for one of these four.
#[derive(Clone, Copy)]
pub struct Server {
    pub phase: u32,
    pub mbal: u32,
    pub bal: u32,
    pub inp: u32,
    pub offer: u32,
    pub top: u32,
    pub seenbal: u32,
    pub seeninp: u32,
    pub written: u32,
    pub read: u32,
    pub agreed: u32,
}

impl Server {
    // The record in this phase and with these own mbal, bal and inp.
    pub fn with_own(self, phase: u32, mbal: u32, bal: u32, inp: u32) -> Server
        ensures { result ≡ with_own self phase mbal bal inp }
    {
        Server {
            phase,
            mbal,
            bal,
            inp,
            ..self
        }
    }

    // The notes of a phase that begins.
    pub fn cleared(self) -> Server
        ensures { result ≡ cleared self }
    {
        Server {
            written: 0,
            read: 0,
            top: 0,
            seenbal: self.bal,
            seeninp: self.inp,
            ..self
        }
    }

    // The record in phase 3, where the slot is settled with this command.
    pub fn with_agreed(self, command: u32) -> Server
        ensures { result ≡ with_agreed self command }
    {
        Server {
            phase: 3,
            agreed: command,
            ..self
        }
    }

    // The record of a server that has failed: nothing is left of it.
    pub fn failed(self) -> Server
        ensures { result ≡ failed }
    {
        let own = Block::BLANK;
        Server {
            offer: 0,
            agreed: own.done,
            ..self.with_own(0, own.mbal, own.bal, own.inp)
        }
        .cleared()
    }

    // The block that the server would write: done says what its output is, 0 for none, as the cell holds it.
    pub fn own_block(self) -> Block
        ensures { result ≡ own_block self }
    {
        Block {
            mbal: self.mbal,
            bal: self.bal,
            inp: self.inp,
            done: self.output().unwrap_or(0),
        }
    }

    // The command that the slot was settled with, as far as this server knows.
    pub fn output(self) -> Option<u32>
        ensures { result ≡ command_in (output_of self) }
    {
        if self.phase == 3 {
            command_in(self.agreed)
        } else {
            None
        }
    }

    // Whether the slot is free for this server: it offers nothing there and is not in phase 3.
    pub fn is_free(self) -> bool
        ensures { result ≡ is_free self }
    {
        (self.offer == 0) & (self.phase != 3)
    }
}

// A step, one of ten kinds with its own numbers: server, slot, drive and other as bytes, in this order, then the
// number, a command or a ballot.
#[derive(Clone, Copy)]
pub enum Step {
    // server, slot, command
    Offer(u8, u8, u32),
    // server, slot, drive
    Recall(u8, u8, u8),
    // server, slot, ballot
    Rejoin(u8, u8, u32),
    // server, slot, ballot
    Bid(u8, u8, u32),
    // server, slot, drive
    Write(u8, u8, u8),
    // server, slot, drive, other
    Read(u8, u8, u8, u8),
    // server, slot
    Finish(u8, u8),
    // server
    Fail(u8),
    // drive
    DriveOff(u8),
    // drive
    DriveOn(u8),
}

// What an accepted step answers: outbid with the ballot found, chosen and committed with the command.
#[derive(Clone, Copy)]
pub enum Answer {
    Done,
    Outbid(u32),
    Chosen(u32),
    Committed(u32),
}

// The word of what a step answers, for C: 0 done, 1 outbid, 2 chosen, 3 committed, 4 refused. It is a function, since both
// types of a `From` would be std's.
pub fn code(answered: Result<Answer, Refusal>) -> u32
    ensures { result ≡ code_of answered }
{
    match answered {
        Ok(Answer::Done) => 0,
        Ok(Answer::Outbid(_)) => 1,
        Ok(Answer::Chosen(_)) => 2,
        Ok(Answer::Committed(_)) => 3,
        Err(_) => 4,
    }
}

// The number that goes with the word.
pub fn number(answered: Result<Answer, Refusal>) -> u32
    ensures { result ≡ number_of answered }
{
    match answered {
        Ok(Answer::Done) => 0,
        Ok(Answer::Outbid(number) | Answer::Chosen(number) | Answer::Committed(number)) => number,
        Err(refusal) => refusal.number(),
    }
}
