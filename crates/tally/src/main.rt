//! An example of a state machine: a tally that clients raise and reset, run by replicas of one
//! history.
#![tactic(auto)]

mod tally;

use crate::tally::{tally_of, touch};
use gp_command::{Access, Command, CommandId, Draft, NoMemory};
use gp_history::Hist;
use gp_index::History;
use gp_replica::has_distinct_ids;
use std::alloc::Global;
use std::io::{self, ErrorKind};

// What a client does: the client, the number of the command, and how it accesses the tally.
type Row = (u32, u32, Access);

// Two clients raise the tally, one reads it, the other resets it, and the first raises it again.
const COMMANDS: [Row; 5] = [
    (0, 1, Access::Add),
    (1, 1, Access::Add),
    (0, 2, Access::Read),
    (1, 2, Access::Write),
    (0, 3, Access::Add),
];

fn history(alloc: Global, rows: &[Row]) -> Result<History, NoMemory> {
    let mut learned = History::empty(alloc)?;
    for (proposer, number, access) in rows.iter().copied() {
        let Ok(draft) = Draft::new(alloc, &[touch(access)], b"") else {
            return Err(NoMemory);
        };
        learned.push(Command::new(CommandId { proposer, number }, draft))?;
    }
    Ok(learned)
}

// As many additions of one client as a run may have commands.
fn additions(alloc: Global) -> Result<Vec<Row>, NoMemory> {
    let mut rows = Vec::new(alloc);
    for number in 1..=1024 {
        rows.push((0, number, Access::Add))?;
    }
    Ok(rows)
}

// Prints how many commands the history of these rows has, and the count after it.
fn show<R: Print>(rt: &R, alloc: Global, rows: &[Row]) -> io::Result<()> {
    let Ok(learned) = history(alloc, rows) else {
        return Err(io::Error::from(ErrorKind::OutOfMemory));
    };
    if !has_distinct_ids(&learned) {
        return Err(io::Error::from(ErrorKind::InvalidData));
    }
    match tally_of(alloc, &learned) {
        Ok(tally) => println!(rt; "{} commands, count {}", learned.len(), tally.count),
        Err(NoMemory) => Err(io::Error::from(ErrorKind::OutOfMemory)),
    }
}

fn main(rt: HostRuntime) -> io::Result<()> {
    // one history in two sequences, since two additions do not conflict
    let mut otherwise = COMMANDS;
    otherwise.swap(0, 1);
    show(&rt, rt.alloc(), &COMMANDS)?;
    show(&rt, rt.alloc(), &otherwise)?;
    let Ok(many) = additions(rt.alloc()) else {
        return Err(io::Error::from(ErrorKind::OutOfMemory));
    };
    show(&rt, rt.alloc(), &many)
}
