//! Histories of operations on accounts, and replicas that run them.

use crate::steps::{Step, draft};
use gp_bank::Bank;
use gp_command::{Command, CommandId};
use gp_history::Hist;
use gp_index::History;
use gp_replica::{Replica, has_distinct_ids};
use std::alloc::Global;
use std::process::Abort;
use std::test::Fail;

/// A command: its proposer, its number, and what it does.
pub type Row = (u32, u32, Step);

fn learn(learned: &mut History, alloc: Global, row: Row) -> Result<(), Fail> {
    let (proposer, number, step) = row;
    let made = draft(alloc, step)?;
    learned.push(Command::new(CommandId { proposer, number }, made))?;
    Ok(())
}

fn history(alloc: Global, rows: &[Row]) -> Result<History, Fail> {
    let mut learned = History::empty(alloc)?;
    for row in rows {
        learn(&mut learned, alloc, *row)?;
    }
    Ok(learned)
}

// Catches up, if the history is one with which a replica may catch up.
fn led(rt: &impl Abort, replica: &mut Replica<Bank>, learned: &History) -> Result<usize, Fail> {
    assert!(rt; replica.ran().is_prefix(learned));
    if !has_distinct_ids(learned) {
        panic!(rt; "two commands have the same identity");
    }
    Ok(replica.catch_up(learned)?)
}

/// Catches up with the history of these commands, and returns how many were run.
pub fn caught_up(
    rt: &impl Abort,
    alloc: Global,
    replica: &mut Replica<Bank>,
    rows: &[Row],
) -> Result<usize, Fail> {
    let learned = history(alloc, rows)?;
    led(rt, replica, &learned)
}
