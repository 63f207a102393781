//! The start of work phases.
ghost use Rattle.std.specs.Prelude.{◌≡◌, ◌<◌, ℕ, [], None, length, slice_index_or, OnOk};
ghost use Rattle.std.specs.List.{All};
ghost use Rattle.gp_work.specs.declared.job.Job.{Job};
ghost use Rattle.gp_phase.specs.Phases.{rounds, only_at, IsNew, IsToOpen, HasAnswered, AreReady, Carried};

use crate::caller::Caller;
use crate::phases::call_round;
use gp_command::NoMemory;
use gp_work::{Job, Process};
use std::sync::Wait;

/// Asks the caller which round the node of job `at` is to begin in the first work phase, and leaves
/// the move in the job. The nodes have posted nothing, and the caller has returned no call before.
/// It returns `NoMemory` if memory runs out or the caller returns that.
pub fn call_first<N, P: Process<N>, C: Caller<N, P>, W: Wait>(
    rt: &W,
    net: &N,
    jobs: &mut Vec<Job<P>>,
    at: usize,
    caller: &mut C,
) -> Result<(), NoMemory>
    requires at { at < length jobs.old.items }
    requires new { All (IsNew P.state P.is_of net.now) jobs.old.items }
    requires none { C.called caller.old ≡ [] }
    requires node { (d : Job P) → (P.state (slice_index_or jobs.old.items at d).cell).node ≡ C.node caller.old }
    requires config { (d : Job P) → (P.state (slice_index_or jobs.old.items at d).cell).config ≡ C.config caller.old }
    requires knows { (d : Job P) → C.knows caller.old (P.state (slice_index_or jobs.old.items at d).cell).list }
    ensures size { length jobs.new.items ≡ length jobs.old.items }
    ensures carried { (i : ℕ) (d : Job P) → i < length jobs.old.items → Carried P.state P.is_of P.causes net.now (slice_index_or jobs.old.items i d) (slice_index_or jobs.new.items i d) }
    ensures unbroken { All (λ (j : Job P). j.fault ≡ None) jobs.new.items }
    ensures ready { OnOk result (AreReady P.state P.is_of net.now C.answers at (C.called caller.new) jobs.new.items) }
    ensures opening { OnOk result ((i : ℕ) (d : Job P) → i < length jobs.old.items → IsToOpen P.state P.is_of net.now (only_at at i (rounds (C.called caller.new))) (slice_index_or jobs.new.items i d)) }
    ensures answered { OnOk result ((d : Job P) → HasAnswered P.state C.answers (C.called caller.new) (slice_index_or jobs.new.items at d)) }
    ensures node { (d : Job P) → (P.state (slice_index_or jobs.new.items at d).cell).node ≡ C.node caller.new }
    ensures config { (d : Job P) → (P.state (slice_index_or jobs.new.items at d).cell).config ≡ C.config caller.new }
    ensures knows { (d : Job P) → C.knows caller.new (P.state (slice_index_or jobs.new.items at d).cell).list }
{
    match call_round(rt, net, &mut jobs[at], caller) {
        Ok(_) => Ok(()),
        Err(none) => Err(none),
    }
}
