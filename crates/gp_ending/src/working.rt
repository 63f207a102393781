//! The work phases of a run.
ghost use Rattle.std.specs.Prelude.{◌≡◌, ◌<◌, ℕ, None, Some, [], length, slice_index_or, IfSome};
ghost use Rattle.gp_ending.specs.declared.ends.RunEnd.TheVariants as RunEnd;
ghost use Rattle.std.specs.List.{All};
ghost use Rattle.gp_work.specs.declared.job.Job.{Job as JobOf};
ghost use Rattle.gp_cell.specs.Cells.{CellState};
ghost use Rattle.gp_cell.specs.Working.{process_of, IsAt};
ghost use Rattle.gp_phase.specs.Beside.{topics};
ghost use Rattle.gp_phase.specs.Phases.{IsNew, AreReady, total};
ghost use Rattle.gp_ending.specs.Begins.{leader};
ghost use Rattle.gp_ending.specs.Ended.{HaveWorked};
ghost use Rattle.gp_ending.specs.Working.{IsCarriedJob, IsCallerAt, RestsAfter, IsDecided};

use crate::ends::{RunEnd, deciding};
use gp_cell::{Cell, PaxosRules};
use gp_edge::{Disk, Gate};
use gp_node::Job;
use gp_phase::{Beside, Caller, PhasesEnd, Trio, call_first, run_phases};
use gp_round::Config;
use gp_wire::Wire;
use gp_work::Process;
use std::alloc::Global;
use std::sync::Wait;
use std::thread::Threads;

/// The jobs after the last work phase, and why the run ended early, if it did.
#[derive(Drop)]
pub struct Worked<D: Disk> {
    pub jobs: Vec<Job<D>>,
    pub end: Option<RunEnd>,
}

// How many records all nodes posted together, if that can be counted.
fn count<N, P: Process<N>>(others: u64, jobs: &[gp_work::Job<P>]) -> Option<u64>
    ensures { IfSome result (λ n. n ≡ total P.state others jobs.now) }
{
    let mut sum = others;
    for i in (0..jobs.len()).rev() {
        let job = &jobs[i];
        sum = job.cell.posted().checked_add(sum)?;
    }
    Some(sum)
}

// Memory ran out.
fn starved<D: Disk>(jobs: Vec<Job<D>>) -> Worked<D>
    ensures jobs { result.jobs ≡ jobs }
    ensures end { result.end ≡ Some RunEnd.NoMemory }
{
    Worked {
        jobs,
        end: Some(RunEnd::NoMemory),
    }
}

/// Runs work phases of all nodes except the proposers until nothing is left to do. `offered` are
/// the jobs of the proposers after their work phase. `jobs` are those of the acceptors, then that
/// of coordinator 0, for which the caller calls rounds, and then the others. They come back in
/// order.
///
/// If a job has a fault, or memory runs out, the run ends early. If several jobs have faults,
/// `deciding` says which one decides.
pub fn go_on<
    D: Disk + Send,
    C: Caller<Wire<PaxosRules>, Cell<D>>,
    A: Beside<Wire<PaxosRules>, Cell<D>> + Send,
    B: Beside<Wire<PaxosRules>, Cell<D>> + Send,
    W: Threads + Wait + Sync,
    G: Gate + Sync,
>(
    rt: &W,
    alloc: Global,
    config: Config,
    wire: &Wire<PaxosRules>,
    caller: &mut C,
    beside: &mut Trio<A, B>,
    offered: &[Job<D>],
    jobs: Vec<Job<D>>,
    gate: &G,
) -> Worked<D>
    requires at { config.acceptors < length jobs.items }
    requires ready { AreReady (process_of D.faults) (λ c w. IsAt c w) wire.now C.answers config.acceptors (C.called caller.old) jobs.items }
    requires caller { IsCallerAt config (C.config caller.old) (C.node caller.old) (λ seen. C.knows caller.old seen) config.acceptors jobs.items }
    ensures size { length result.jobs.items ≡ length jobs.items }
    ensures carried { (i : ℕ) (d : JobOf (CellState D)) → i < length jobs.items
        → IsCarriedJob D.content D.faults wire.now (slice_index_or jobs.items i d) (slice_index_or result.jobs.items i d) }
    ensures worked { result.end ≡ None → HaveWorked C.answers D.faults wire.now config.acceptors (total (process_of D.faults) 0 offered.now) (C.called caller.new) jobs.items result.jobs.items }
    ensures caller { result.end ≡ None → IsCallerAt config (C.config caller.new) (C.node caller.new) (λ seen. C.knows caller.new seen) config.acceptors result.jobs.items }
    ensures decided { IfSome result.end (IsDecided result.jobs.items) }
    ensures topics { topics A.topic B.topic beside.new ≡ topics A.topic B.topic beside.old }
{
    let at = config.acceptors() as usize;
    let Some(others) = count::<Wire<PaxosRules>, Cell<D>>(0, offered) else {
        return starved(jobs);
    };
    let phases = run_phases(rt, alloc, wire, jobs, at, caller, beside, others, gate);
    let end = match phases.end {
        PhasesEnd::Quiet => None,
        PhasesEnd::Fault | PhasesEnd::NoMemory => {
            Some(deciding(&phases.jobs).unwrap_or(RunEnd::NoMemory))
        }
    };
    Worked {
        jobs: phases.jobs,
        end,
    }
}

/// Asks the caller for the first round of coordinator 0, and then goes on with work phases as
/// `go_on`. The jobs are new, and the caller has called no round before.
pub fn work<
    D: Disk + Send,
    C: Caller<Wire<PaxosRules>, Cell<D>>,
    A: Beside<Wire<PaxosRules>, Cell<D>> + Send,
    B: Beside<Wire<PaxosRules>, Cell<D>> + Send,
    W: Threads + Wait + Sync,
    G: Gate + Sync,
>(
    rt: &W,
    alloc: Global,
    config: Config,
    wire: &Wire<PaxosRules>,
    caller: &mut C,
    beside: &mut Trio<A, B>,
    offered: &[Job<D>],
    starting: Vec<Job<D>>,
    gate: &G,
) -> Worked<D>
    requires config { wire.now.rules.config ≡ config }
    requires new { All (λ j. IsNew (process_of D.faults) (λ c w. IsAt c w) wire.now j) starting.items }
    requires at { config.acceptors < length starting.items }
    requires leads { (d : JobOf (CellState D)) → (slice_index_or starting.items config.acceptors d).cell.node ≡ leader }
    requires caller { IsCallerAt config (C.config caller.old) (C.node caller.old) (λ seen. C.knows caller.old seen) config.acceptors starting.items }
    requires none { C.called caller.old ≡ [] }
    ensures size { length result.jobs.items ≡ length starting.items }
    ensures carried { (i : ℕ) (d : JobOf (CellState D)) → i < length starting.items
        → IsCarriedJob D.content D.faults wire.now (slice_index_or starting.items i d) (slice_index_or result.jobs.items i d) }
    ensures quiet { result.end ≡ None → RestsAfter C.answers D.faults wire.now config.acceptors (total (process_of D.faults) 0 offered.now) (C.called caller.new) starting.items result.jobs.items }
    ensures caller { result.end ≡ None → IsCallerAt config (C.config caller.new) (C.node caller.new) (λ seen. C.knows caller.new seen) config.acceptors result.jobs.items }
    ensures decided { IfSome result.end (IsDecided result.jobs.items) }
    ensures topics { topics A.topic B.topic beside.new ≡ topics A.topic B.topic beside.old }
{
    let at = config.acceptors() as usize;
    let mut jobs = starting;
    if call_first(rt, wire, &mut jobs, at, caller).is_err() {
        return starved(jobs);
    }
    go_on(rt, alloc, config, wire, caller, beside, offered, jobs, gate)
}
