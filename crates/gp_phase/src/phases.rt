//! The work phases of a run.
ghost use Rattle.std.specs.Prelude.{◌≡◌, ◌<◌, ℕ, true, false, [], length, slice_index_or, IfOk, IfSome};
ghost use Rattle.std.specs.List.{All};
ghost use Rattle.std.specs.Prelude.{None};
ghost use Rattle.gp_work.specs.declared.job.Job.{Job};
ghost use Rattle.gp_work.specs.Doing.{Goes, Posted};
ghost use Rattle.gp_phase.specs.declared.phases.PhasesEnd.TheVariants as PhasesEnd;
ghost use Rattle.gp_phase.specs.Beside.{topics};
ghost use Rattle.gp_phase.specs.Phases.{rounds, only_at, total, AreReady, Carried, Finished, Opens, Asked, Follows};

use crate::beside::{Beside, Trio, workers_beside};
use crate::caller::Caller;
use gp_command::NoMemory;
use gp_edge::Gate;
use gp_work::{Job, Move, Process};
use std::alloc::Global;
use std::sync::Wait;
use std::thread::Threads;

/// Why the work phases ended.
#[derive(Clone, Copy, Debug, PartialEq, Eq)]
pub enum PhasesEnd {
    /// No node posted a record in the last work phase, every node has seen all records that were
    /// posted before, and no round is left to begin.
    Quiet,
    /// A job has a fault.
    Fault,
    /// Memory ran out between two work phases.
    NoMemory,
}

/// The jobs after the last work phase, and why the phases ended.
#[derive(Drop)]
pub struct Phases<P> {
    pub jobs: Vec<Job<P>>,
    pub end: PhasesEnd,
}

// Whether a job has a fault.
fn has_fault<P>(jobs: &[Job<P>]) -> bool
    ensures none { result ≡ false → All (λ (j : Job P). j.fault ≡ None) jobs.now }
    ensures some { result ≡ true → ¬ All (λ (j : Job P). j.fault ≡ None) jobs.now }
{
    for job in jobs {
        if job.fault.is_some() {
            return true;
        }
    }
    false
}

// How many records all nodes posted together, if that can be counted.
fn count<N, P: Process<N>>(others: u64, jobs: &[Job<P>]) -> Option<u64>
    ensures { IfSome result (λ n. n ≡ total P.state others jobs.now) }
{
    let mut sum = others;
    for i in (0..jobs.len()).rev() {
        let job = &jobs[i];
        sum = job.cell.posted().checked_add(sum)?;
    }
    Some(sum)
}

// Whether each node has seen `all` records.
fn have_seen<N, P: Process<N>>(jobs: &[Job<P>], all: u64) -> bool
    ensures { result ≡ true → All (λ (j : Job P). length (P.state j.cell).list ≡ all) jobs.now }
{
    for job in jobs {
        if job.cell.seen() != all {
            return false;
        }
    }
    true
}

// Whether nothing was posted in a work phase, and each node has seen all that was posted before.
fn is_quiet<N, P: Process<N>>(before: Option<u64>, others: u64, jobs: &[Job<P>]) -> bool
    ensures { result ≡ true → All (λ (j : Job P). length (P.state j.cell).list ≡ total P.state others jobs.now) jobs.now }
{
    match (before, count(others, jobs)) {
        (Some(before), Some(after)) => before == after && have_seen(jobs, after),
        _ => false,
    }
}

/// Asks the caller which round the node of a job is to begin next, and leaves the move for the next
/// work phase in the job. Returns `false` only if there is no such round, and `NoMemory` if memory
/// runs out or the caller returns that.
pub fn call_round<N, P: Process<N>, C: Caller<N, P>, W: Wait>(
    rt: &W,
    net: &N,
    job: &mut Job<P>,
    caller: &mut C,
) -> Result<bool, NoMemory>
    requires own { P.is_of job.old.cell net.now }
    requires up { (P.state job.old.cell).up ≡ true }
    requires node { (P.state job.old.cell).node ≡ C.node caller.old }
    requires config { (P.state job.old.cell).config ≡ C.config caller.old }
    requires knows { C.knows caller.old (P.state job.old.cell).list }
    requires first { job.old.first ≡ [] }
    ensures node { C.node caller.new ≡ C.node caller.old }
    ensures config { C.config caller.new ≡ C.config caller.old }
    ensures knows { C.knows caller.new (P.state job.new.cell).list }
    ensures own { P.is_of job.new.cell net.now }
    ensures goes { Goes (P.state job.old.cell) (P.state job.new.cell) }
    ensures posts { Posted (P.state job.old.cell) (P.state job.new.cell) [] }
    ensures up { (P.state job.new.cell).up ≡ true }
    ensures cursor { job.new.cursor ≡ job.old.cursor }
    ensures risen { job.new.risen ≡ job.old.risen }
    ensures fault { job.new.fault ≡ job.old.fault }
    ensures asked { IfOk result (Asked P.state (C.answers (P.state job.old.cell).config (P.state job.old.cell).node) (C.called caller.old) (C.called caller.new) job.old job.new) }
{
    match caller.next(rt, net, &mut job.cell) {
        Ok(None) => Ok(false),
        Ok(Some(call)) => match job.first.push(Move::Begin(call.round)) {
            Ok(()) => Ok(true),
            Err(_) => Err(NoMemory),
        },
        Err(none) => Err(none),
    }
}

/// Runs work phases. In each of them the jobs and the other work are done (`workers_beside`). After
/// it the caller is asked which round the node of job `at` is to begin in the next one.
///
/// The work phases end after one in which a job has a fault, or if memory runs out. They also end
/// after one in which no node posted a record, after which each node has seen as many records as
/// all nodes posted, and which leaves no round to begin. `others` is the number of records that the
/// nodes without a job posted.
pub fn run_phases<
    N: Sync,
    P: Process<N> + Send + Drop,
    C: Caller<N, P>,
    A: Beside<N, P> + Send,
    B: Beside<N, P> + Send,
    W: Threads + Wait + Sync,
    G: Gate + Sync,
>(
    rt: &W,
    alloc: Global,
    net: &N,
    mut jobs: Vec<Job<P>>,
    at: usize,
    caller: &mut C,
    beside: &mut Trio<A, B>,
    others: u64,
    gate: &G,
) -> Phases<P>
    requires at { at < length jobs.items }
    requires ready { AreReady P.state P.is_of net.now C.answers at (C.called caller.old) jobs.items }
    requires node { (d : Job P) → (P.state (slice_index_or jobs.items at d).cell).node ≡ C.node caller.old }
    requires config { (d : Job P) → (P.state (slice_index_or jobs.items at d).cell).config ≡ C.config caller.old }
    requires knows { (d : Job P) → C.knows caller.old (P.state (slice_index_or jobs.items at d).cell).list }
    ensures size { length result.jobs.items ≡ length jobs.items }
    ensures carried { (i : ℕ) (d : Job P) → i < length jobs.items → Carried P.state P.is_of P.causes net.now (slice_index_or jobs.items i d) (slice_index_or result.jobs.items i d) }
    ensures blamed { result.end ≡ PhasesEnd.Fault → ¬ All (λ (j : Job P). j.fault ≡ None) result.jobs.items }
    ensures finished { result.end ≡ PhasesEnd.Quiet → (i : ℕ) (d : Job P) → i < length jobs.items
        → Finished P.state P.is_of net.now (only_at at i (rounds (C.called caller.new))) (total P.state others result.jobs.items) (slice_index_or jobs.items i d) (slice_index_or result.jobs.items i d) }
    ensures opens { result.end ≡ PhasesEnd.Quiet → (i : ℕ) (d : Job P) → i < length jobs.items → Opens P.state (slice_index_or jobs.items i d) (slice_index_or result.jobs.items i d) }
    ensures follows { result.end ≡ PhasesEnd.Quiet → (d : Job P) → Follows P.state C.answers (slice_index_or result.jobs.items at d) (C.called caller.new) None }
    ensures last { result.end ≡ PhasesEnd.Quiet → (d : Job P) → let j = slice_index_or result.jobs.items at d in C.answers (P.state j.cell).config (P.state j.cell).node (C.called caller.new) (P.state j.cell).list None }
    ensures node { C.node caller.new ≡ C.node caller.old }
    ensures config { C.config caller.new ≡ C.config caller.old }
    ensures knows { result.end ≡ PhasesEnd.Quiet → (d : Job P) → C.knows caller.new (P.state (slice_index_or result.jobs.items at d).cell).list }
    ensures topics { topics A.topic B.topic beside.new ≡ topics A.topic B.topic beside.old }
{
    for _ in rt.forever() {
        let before = count(others, &jobs);
        jobs = workers_beside(rt, alloc, net, jobs, beside, gate);
        if has_fault(&jobs) {
            let end = PhasesEnd::Fault;
            return Phases { jobs, end };
        }
        let quiet = is_quiet(before, others, &jobs);
        match call_round(rt, net, &mut jobs[at], caller) {
            Err(NoMemory) => {
                let end = PhasesEnd::NoMemory;
                return Phases { jobs, end };
            }
            Ok(left) => {
                if quiet && !left {
                    let end = PhasesEnd::Quiet;
                    return Phases { jobs, end };
                }
            }
        }
    }
    unreachable!()
}
