//! How a replica catches up with a history that was not checked before.
ghost use Rattle.std.specs.Prelude.{◌≡◌, IfOk, OnOk, map};
ghost use Rattle.gp_history.specs.Sequence.{history_of};
ghost use Rattle.gp_views.specs.Lists.{Extends};

use gp_command::{CommandId, NoMemory};
use gp_history::Hist;
use gp_index::History;
use gp_replica::{Replica, has_distinct_ids};
use gp_store::KeyStore;
use std::alloc::Global;

/// Has the replica run what was learned after what it ran. Returns `NoMemory` if memory runs out,
/// and also if what it ran is not a prefix of `learned`, or if two commands of `learned` have the
/// same identity. One learner that has not crashed gives no such history.
pub fn catch_up(replica: &mut Replica<KeyStore>, learned: &History) -> Result<(), NoMemory>
    ensures all { OnOk result (history_of replica.new ≡ history_of learned.now) }
    ensures more { Extends replica.new replica.old }
{
    if !replica.ran().is_prefix(learned) || !has_distinct_ids(learned) {
        return Err(NoMemory);
    }
    replica.catch_up(learned)?;
    Ok(())
}

/// The identities of the commands, in their order.
pub fn ids_of(alloc: Global, ran: &History) -> Result<Vec<CommandId>, NoMemory>
    ensures { IfOk result (λ ids. ids.items ≡ map (λ c. c.id) ran.now) }
{
    let mut ids = Vec::new(alloc);
    for place in 0..ran.len() {
        ids.push(ran.at(place).id())?;
    }
    Ok(ids)
}
