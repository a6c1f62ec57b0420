// The next step of a server on its own in a slot. No cell changes.
#![tactic(auto)]

ghost use Rattle.std.specs.Prelude.{◌≡◌, ◌≤◌};
ghost use Rattle.quorum.specs.Sets.{gathered};
ghost use Rattle.layout.specs.Places.{Fit};
ghost use Rattle.progress.specs.Used.{is_used};
ghost use Rattle.progress.specs.Next.{first, recalls_left, rejoin, reads_left, left_on, rounds_left, wished, next_answered};

use checks::Refusal;
use drives::Acting;
use quorum::{has_mark, is_majority, with_mark};
use room::effect::{acting, judge_in};
use state::Step;

// The next step of the server in the slot, or none. Refused with 3 where the row is no room in range, with 4 where the server or
// the slot is beyond the room, and with 19 where the drives that are on are no majority.
#[tactic(auto, using(crate::proofs::UsedLaws::majority_used, crate::proofs::Judged::accepted_where_judged), unfolding(checks::specs::Checks::must, progress::specs::Next::next_answered, progress::specs::Next::next_checks, progress::specs::Next::next_of))]
pub fn next(room: &[u32], server: u32, slot: u32) -> Result<Option<Step>, Refusal>
    ensures { result ≡ next_answered room.now server slot }
{
    let room = range::room_in(room)?;
    if !room.sizes.has_slot(server, slot) {
        return Err(Refusal::BeyondRoom);
    }
    // `as` keeps both numbers: a room has at most 4 servers and 16 slots.
    let turn = Turn::new(acting(&room, slot as u8, server as u8), slot as u8);
    if !is_majority(room.sizes.drives, turn.used) {
        return Err(Refusal::OnDrivesTooFew);
    }
    match turn.wished() {
        Some(step) if judge_in(&room, step).is_ok() => Ok(Some(step)),
        _ => Ok(None),
    }
}

// The drives that are used, as marks: those that are on while the on drives below are no majority.
fn used_drives(drives: u32, off: u32) -> u32
    requires { drives ≤ 32 }
    ensures { result ≡ gathered drives (is_used drives off) }
{
    let mut used = 0;
    let mut below = 0;
    for d in 0..drives {
        if !has_mark(off, d) {
            if !is_majority(drives, below) {
                used = with_mark(used, d);
            }
            below = with_mark(below, d);
        }
    }
    used
}

// A server as it acts in a slot, and the drives that it uses.
#[derive(Clone, Copy)]
struct Turn {
    acting: Acting,
    slot: u8,
    used: u32,
    ghost fit: { Fit acting.sizes },
    ghost uses: { used ≡ gathered acting.sizes.drives (is_used acting.sizes.drives acting.off) },
}

impl Turn {
    fn new(acting: Acting, slot: u8) -> Turn
        requires { Fit acting.sizes }
        ensures { (result.acting ≡ acting) × (result.slot ≡ slot) }
    {
        Turn {
            acting,
            slot,
            used: used_drives(acting.sizes.drives, acting.off),
        }
    }

    // What the server would do next, by its own record.
    #[tactic(auto, unfolding(progress::specs::Next::wished))]
    fn wished(self) -> Option<Step>
        ensures { result ≡ wished self.acting.sizes self.acting.off self.acting.record self.acting.server self.slot }
    {
        match self.acting.record.phase {
            0 => self.recall().or_else(|| self.rejoin()),
            1 | 2 => self
                .round()
                .or(Some(Step::Finish(self.acting.server, self.slot))),
            _ => None,
        }
    }

    // The first used drive that is not recalled. `as` keeps the number of drives and of servers, here and below: at most 7 and 4.
    fn recall(self) -> Option<Step>
        ensures { result ≡ first (recalls_left self.acting.sizes self.acting.off self.acting.record self.acting.server self.slot) }
    {
        let p = self.acting.server;
        (0..self.acting.sizes.drives as u8)
            .find(|&d| has_mark(self.used, d.into()) && !self.acting.was_read(d.into(), p.into()))
            .map(|d| Step::Recall(p, self.slot, d))
    }

    // Back with the least own ballot above top.
    #[tactic(auto, unfolding(progress::specs::Next::rejoin))]
    fn rejoin(self) -> Option<Step>
        ensures { result ≡ rejoin self.acting.sizes self.acting.off self.acting.record self.acting.server self.slot }
    {
        let ballot = self.acting.owner().next_own(self.acting.record.top)?;
        Some(Step::Rejoin(self.acting.server, self.slot, ballot))
    }

    // The first step that is left on the used drives.
    fn round(self) -> Option<Step>
        ensures { result ≡ first (rounds_left self.acting.sizes self.acting.off self.acting.record self.acting.server self.slot) }
    {
        (0..self.acting.sizes.drives as u8)
            .find(|&d| has_mark(self.used, d.into()) && self.left_on(d).is_some())
            .and_then(|d| self.left_on(d))
    }

    // The first step that is left on drive d: to write it, then to read the others there.
    #[tactic(auto, unfolding(progress::specs::Next::left_on))]
    fn left_on(self, d: u8) -> Option<Step>
        ensures { result ≡ first (left_on self.acting.sizes self.acting.off self.acting.record self.acting.server self.slot d) }
    {
        if has_mark(self.acting.record.written, d.into()) {
            self.read_on(d)
        } else {
            Some(Step::Write(self.acting.server, self.slot, d))
        }
    }

    // The first read that is left on drive d.
    fn read_on(self, d: u8) -> Option<Step>
        ensures { result ≡ first (reads_left self.acting.sizes self.acting.off self.acting.record self.acting.server self.slot d) }
    {
        let p = self.acting.server;
        (0..self.acting.sizes.servers as u8)
            .find(|&q| q != p && !self.acting.was_read(d.into(), q.into()))
            .map(|q| Step::Read(p, self.slot, d, q))
    }
}
