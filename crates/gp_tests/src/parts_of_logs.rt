//! Durable parts of an acceptor, and calls on logs.
use gp_command::{Access, Command, CommandId, Draft, Key, Touch};
use gp_edge::Disk;
use gp_history::Hist;
use gp_index::History;
use gp_msg::Durable;
use gp_round::{Mode, Round};
use gp_vlog::{AppendFault, Log, OpenFault, keeps_rules};
use std::alloc::Global;

// The round of this count whose lead is coordinator 0.
fn single(count: u32) -> Round {
    Round {
        count,
        mode: Mode::Single,
        lead: 0,
    }
}

// A write of one key by the first offer of a proposer. `None` if memory runs out.
fn put(alloc: Global, proposer: u32, key: &str, body: &str) -> Option<Command> {
    let touch = Touch {
        key: Key::new(key.as_bytes()).ok()?,
        access: Access::Write,
    };
    let id = CommandId {
        proposer,
        number: 1,
    };
    let draft = Draft::new(alloc, &[touch], body.as_bytes()).ok()?;
    Some(Command::new(id, draft))
}

/// The acceptor's part of round 1, which voted in it for as many of the commands `put a 5` of proposer 0
/// and `put b 2` of proposer 1; with none it has voted in no round. `None` if memory runs out.
pub fn part(alloc: Global, commands: usize) -> Option<Durable> {
    let voted = if commands > 0 {
        single(1)
    } else {
        Round::zero()
    };
    Some(Durable::Acceptor {
        epoch: 0,
        round: single(1),
        voted,
        vote: vote_for(alloc, commands)?,
    })
}

// The proposers of the commands of a vote, their keys, and their bodies.
static VOTED: [(u32, &str, &str); 2] = [(0, "a", "put a 5"), (1, "b", "put b 2")];

fn vote_for(alloc: Global, commands: usize) -> Option<History> {
    let mut vote = History::empty(alloc).ok()?;
    for (proposer, key, body) in &VOTED[..commands.min(2)] {
        if !pushes(alloc, &mut vote, *proposer, key, body) {
            return None;
        }
    }
    Some(vote)
}

// Whether a write of one key by the first offer of a proposer is added to a vote.
fn pushes(alloc: Global, vote: &mut History, proposer: u32, key: &str, body: &str) -> bool {
    match put(alloc, proposer, key, body) {
        Some(command) => vote.push(command).is_ok(),
        None => false,
    }
}

/// How many commands the vote of an acceptor's part has.
pub fn votes(part: &Durable) -> Option<usize> {
    match part {
        Durable::Acceptor { vote, .. } => Some(vote.len()),
        Durable::Coordinator { .. } => None,
    }
}

/// Appends to a log that is ready and has no entry of version 1.
pub fn append<D: Disk>(log: &mut Log<D>, part: &Durable) -> Result<(), AppendFault> {
    if !log.is_ready() {
        return Err(AppendFault::NoMemory);
    }
    if log.is_old() {
        return Err(AppendFault::NoMemory);
    }
    if !keeps_rules(part) {
        return Err(AppendFault::NoMemory);
    }
    log.append(part)
}

/// Makes a part the only entry of a log that is ready.
pub fn renew<D: Disk>(log: &mut Log<D>, part: &Durable) -> Result<(), AppendFault> {
    if !log.is_ready() {
        return Err(AppendFault::NoMemory);
    }
    if !keeps_rules(part) {
        return Err(AppendFault::NoMemory);
    }
    log.renew(part)
}

/// Whether the part with so many commands is appended.
pub fn appends_part<D: Disk>(alloc: Global, log: &mut Log<D>, commands: usize) -> bool {
    match part(alloc, commands) {
        Some(entry) => append(log, &entry).is_ok(),
        None => false,
    }
}

/// Whether the part with so many commands becomes the only entry.
pub fn renews_part<D: Disk>(alloc: Global, log: &mut Log<D>, commands: usize) -> bool {
    match part(alloc, commands) {
        Some(entry) => renew(log, &entry).is_ok(),
        None => false,
    }
}

/// The result of opening: the number of entries and the size, or why it was refused.
pub type Opens = Result<(usize, u64), OpenFault>;

/// The result of opening the log on this disk.
pub fn opens_on<D: Disk>(alloc: Global, disk: D) -> Opens {
    match Log::open(alloc, disk) {
        Ok(log) => Ok((log.count(), log.size())),
        Err(unopened) => Err(unopened.why),
    }
}

/// The bytes break the format at this place.
pub fn broken(at: usize) -> Opens {
    Err(OpenFault::NotLog { at: at as u64 })
}
