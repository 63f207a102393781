//! Replicas of what learners learned.
ghost use Rattle.std.specs.Prelude.{◌≡◌, IfOk};
ghost use Rattle.gp_history.specs.Sequence.{history_of};
ghost use Rattle.gp_history.specs.Canonical.{canonical};
ghost use Rattle.gp_replica.specs.Runs.{HasDistinctIds};

use gp_command::NoMemory;
use gp_index::History;
use gp_replica::{Machine, Replica};
use std::alloc::Global;

// A replica that ran a learned history in canonical order.
pub(crate) fn replica_of<M: Machine>(
    alloc: Global,
    learned: &History,
) -> Result<Replica<M>, NoMemory>
    requires { HasDistinctIds (history_of learned.now) }
    ensures order { IfOk result (λ replica. replica ≡ canonical (history_of learned.now)) }
    ensures history { IfOk result (λ replica. history_of replica ≡ history_of learned.now) }
{
    let mut replica = Replica::<M>::new(alloc)?;
    let _count = replica.catch_up(learned)?;
    Ok(replica)
}
