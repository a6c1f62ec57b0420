// The rules of the algorithm on values: each takes the server that the step names, the block it looks at and the step's
// other numbers, and answers a refusal or the record as it becomes, with the answer.
#![tactic(auto)]

ghost use Rattle.std.specs.Prelude.{◌≡◌, max};
ghost use Rattle.synod.specs.Changes.{meeting, bidding};
ghost use Rattle.ballot.specs.Ballot.{next_own};
ghost use Rattle.state.specs.Block.{command_in};
ghost use Rattle.synod.specs.Rules.{ruling, balloting, joined, agree_rule, command_of, outbid_rule, offer_rule, recall_rule, rejoin_rule, bid_rule, write_rule, read_rule, finish_rule};

use checks::Refusal;
use drives::Acting;
use quorum::{has_mark, is_majority, with_mark};
use state::{Answer, Block, Server, command_in};
use synod::Ruling;

// 1 Offer, in any phase. It needs the record alone.
#[tactic(auto, unfolding(synod::specs::Rules::offer_rule))]
pub fn offer(v: Server, command: u32) -> Ruling
    ensures { result ≡ ruling (offer_rule v command) }
{
    let w = Server {
        offer: command,
        ..v
    };
    Ok((w, Answer::Done))
}

// 2 Recall, phase 0: b is the server's own block on drive d.
#[tactic(auto, unfolding(checks::specs::Checks::must, synod::specs::Rules::recall_rule, synod::specs::Changes::recalling, synod::specs::Changes::topping, synod::specs::Changes::marking))]
pub fn recall(a: Acting, b: Block, d: u8) -> Ruling
    ensures { result ≡ ruling (recall_rule a.off a.record b a.server d) }
{
    let v = a.record;
    if v.phase != 0 {
        return Err(Refusal::WrongPhase);
    }
    if a.has_off(d) {
        return Err(Refusal::DriveIsOff);
    }
    let w = Server {
        read: with_mark(v.read, drives::read_bit(d, a.server)),
        top: v.top.max(b.mbal),
        ..v
    };
    Ok((meet(w, b), Answer::Done))
}

// 3 Rejoin, phase 0, a majority recalled, the ballot the server's and above top.
#[tactic(auto, using(quorum::proofs::Gathered::majority_gathered), unfolding(checks::specs::Checks::must, synod::specs::Rules::rejoin_rule, synod::specs::Changes::rejoining))]
pub fn rejoin(a: Acting, ballot: u32) -> Ruling
    ensures { result ≡ ruling (rejoin_rule a.sizes.servers a.sizes.drives a.record a.server ballot) }
{
    let v = a.record;
    if !a.owner().is_own(ballot) {
        return Err(Refusal::NotOwnBallot);
    }
    if v.phase != 0 {
        return Err(Refusal::WrongPhase);
    }
    if !is_majority(a.sizes.drives, a.recalled()) {
        return Err(Refusal::NoMajority);
    }
    if ballot <= v.top {
        return Err(Refusal::BallotTooLow);
    }
    Ok((
        v.with_own(1, ballot, v.seenbal, v.seeninp).cleared(),
        Answer::Done,
    ))
}

// 4 Bid, phase 1 or 2, the ballot the server's and above the own mbal.
#[tactic(auto, unfolding(checks::specs::Checks::must, synod::specs::Rules::bid_rule))]
pub fn bid(a: Acting, ballot: u32) -> Ruling
    ensures { result ≡ ruling (bid_rule a.sizes.servers a.record a.server ballot) }
{
    let v = a.record;
    if !a.owner().is_own(ballot) {
        return Err(Refusal::NotOwnBallot);
    }
    if !in_ballot(v) {
        return Err(Refusal::WrongPhase);
    }
    if ballot <= v.mbal {
        return Err(Refusal::BallotTooLow);
    }
    Ok((restart(v, ballot), Answer::Done))
}

// 5 Write, phase 1, 2 or 3. The block to be written is the own block.
#[tactic(auto, unfolding(checks::specs::Checks::must, synod::specs::Rules::write_rule, synod::specs::Changes::writing))]
pub fn write(a: Acting, d: u8) -> Ruling
    ensures { result ≡ ruling (write_rule a.off a.record d) }
{
    let v = a.record;
    if !has_joined(v) {
        return Err(Refusal::WrongPhase);
    }
    if a.has_off(d) {
        return Err(Refusal::DriveIsOff);
    }
    let w = Server {
        written: with_mark(v.written, d.into()),
        ..v
    };
    Ok((w, Answer::Done))
}

// 6 Read, phase 1 or 2, d written in this phase: b is server q's block on drive d. A done is learned before the ballots
// are looked at.
#[tactic(auto, unfolding(checks::specs::Checks::must, synod::specs::Rules::read_rule, synod::specs::Changes::reading, synod::specs::Changes::marking))]
pub fn read(a: Acting, b: Block, d: u8, q: u8) -> Ruling
    ensures { result ≡ ruling (read_rule a.sizes.servers a.off a.record b a.server d q) }
{
    let v = a.record;
    if !in_ballot(v) {
        return Err(Refusal::WrongPhase);
    }
    if a.has_off(d) {
        return Err(Refusal::DriveIsOff);
    }
    if !has_mark(v.written, d.into()) {
        return Err(Refusal::NotWritten);
    }
    if let Some(command) = command_in(b.done) {
        return agree_on(v, command);
    }
    if v.mbal <= b.mbal {
        return outbid(a, b.mbal);
    }
    let w = Server {
        read: with_mark(v.read, drives::read_bit(d, q)),
        ..v
    };
    Ok((meet(w, b), Answer::Done))
}

// 7 Finish, phase 1 or 2, a majority of drives written with every other server's block read there.
#[tactic(auto, using(quorum::proofs::Gathered::majority_gathered), unfolding(checks::specs::Checks::must, synod::specs::Rules::finish_rule, synod::specs::Changes::proposing))]
pub fn finish(a: Acting) -> Ruling
    ensures { result ≡ ruling (finish_rule a.sizes.servers a.sizes.drives a.record a.server) }
{
    let v = a.record;
    if !in_ballot(v) {
        return Err(Refusal::WrongPhase);
    }
    if !is_majority(a.sizes.drives, a.complete()) {
        return Err(Refusal::NoMajority);
    }
    if v.phase == 1 {
        let command = command_to_try(v).ok_or(Refusal::NothingToTry)?;
        let w = v.with_own(2, v.mbal, v.mbal, command).cleared();
        return Ok((w, Answer::Chosen(command)));
    }
    agree_on(v, v.inp)
}

// Phase 3 with the command that the slot is settled with: by the own ballot, or by a done that was read.
#[tactic(auto, unfolding(synod::specs::Changes::agreeing))]
fn agree_on(v: Server, command: u32) -> Ruling
    ensures { result ≡ ruling (agree_rule v command) }
{
    Ok((v.with_agreed(command).cleared(), Answer::Committed(command)))
}

// A block with a ballot that is not below the own one was found.
#[tactic(auto, unfolding(checks::specs::Checks::must, synod::specs::Rules::outbid_rule))]
fn outbid(a: Acting, found: u32) -> Ruling
    ensures { result ≡ ruling (outbid_rule a.record found (next_own a.sizes.servers a.server found)) }
{
    let next = a.owner().next_own(found).ok_or(Refusal::BallotsSpent)?;
    Ok((restart(a.record, next), Answer::Outbid(found)))
}

// Phase 1 of a new ballot. A function, as those below, and no method of the record: its definition is in synod, above state.
#[tactic(auto, unfolding(synod::specs::Changes::bidding))]
fn restart(v: Server, ballot: u32) -> Server
    ensures { result ≡ bidding v ballot }
{
    v.with_own(1, ballot, v.bal, v.inp).cleared()
}

// A block met in this phase: a larger bal replaces what was seen.
#[tactic(auto, unfolding(synod::specs::Changes::meeting))]
fn meet(v: Server, b: Block) -> Server
    ensures { result ≡ meeting v b }
{
    if v.seenbal < b.bal {
        Server {
            seenbal: b.bal,
            seeninp: b.inp,
            ..v
        }
    } else {
        v
    }
}

fn in_ballot(v: Server) -> bool
    ensures { result ≡ balloting v }
{
    matches!(v.phase, 1 | 2)
}

fn has_joined(v: Server) -> bool
    ensures { result ≡ joined v }
{
    matches!(v.phase, 1 | 2 | 3)
}

// The command of phase 1, as far as there is one.
fn command_to_try(v: Server) -> Option<u32>
    ensures { result ≡ command_in (command_of v) }
{
    command_in(v.seeninp).or(command_in(v.offer))
}
