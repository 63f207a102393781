//! Replicas that have run a few commands.
ghost use Rattle.gp_views.specs.Lists.{Extends};

use gp_command::{Command, CommandId};
use gp_history::Hist;
use gp_index::History;
use gp_replica::{Replica, has_distinct_ids};
use gp_store::{KeyStore, Op, draft_of};
use std::alloc::Global;
use std::process::Abort;
use std::test::Fail;

/// Adds a command of proposer 0 that does this.
pub fn learn(learned: &mut History, alloc: Global, number: u32, op: Op) -> Result<(), Fail> {
    let id = CommandId {
        proposer: 0,
        number,
    };
    learned.push(Command::new(id, draft_of(alloc, op)?))?;
    Ok(())
}

/// Catches up, if the history is one with which a replica may catch up. The replica then has run
/// what it had run, and more.
pub fn catch_up(
    rt: &impl Abort,
    replica: &mut Replica<KeyStore>,
    learned: &History,
) -> Result<usize, Fail>
    ensures { Extends replica.new replica.old }
{
    assert!(rt; replica.ran().is_prefix(learned));
    if !has_distinct_ids(learned) {
        panic!(rt; "two commands have the same identity");
    }
    Ok(replica.catch_up(learned)?)
}

/// A replica that has run these commands of proposer 0, each with its number.
pub fn replica_of(
    rt: &impl Abort,
    alloc: Global,
    commands: &[(u32, Op)],
) -> Result<Replica<KeyStore>, Fail> {
    let mut learned = History::empty(alloc)?;
    learn_all(&mut learned, alloc, commands)?;
    caught_up(rt, alloc, &learned)
}

fn learn_all(learned: &mut History, alloc: Global, commands: &[(u32, Op)]) -> Result<(), Fail> {
    for (number, op) in commands {
        learn(learned, alloc, *number, *op)?;
    }
    Ok(())
}

fn caught_up(rt: &impl Abort, alloc: Global, learned: &History) -> Result<Replica<KeyStore>, Fail> {
    let mut replica = Replica::new(alloc)?;
    catch_up(rt, &mut replica, learned)?;
    Ok(replica)
}
