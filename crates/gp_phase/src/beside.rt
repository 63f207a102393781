//! Other work beside that of a work phase.
ghost use Rattle.std.specs.Prelude.{◌≡◌};
ghost use Rattle.gp_work.specs.declared.job.Job.{Job};
ghost use Rattle.gp_phase.specs.Beside.{CanWork, HaveAllWorked, topics};

use gp_edge::Gate;
use gp_work::{Job, Process, workers};
use std::alloc::Global;
use std::mem::replace;
use std::sync::Wait;
use std::thread::{Threads, join_mut};

/// Work that is done beside each work phase, in a thread of its own; no clause says that it is
/// done.
pub trait Beside<N, P: Process<N>> {
    /// The type of its topic.
    ghost Topic: { Type 0 };

    /// What the work is about. It never changes.
    ghost topic: { Self → Topic };

    /// Looks at the nodes before a work phase; no clause says that it is called.
    fn prepare(&mut self, jobs: &[Job<P>])
        ensures { topic self.new ≡ topic self.old };

    /// Does its work while the nodes do theirs; no clause says that it is called.
    fn act<W: Wait>(&mut self, rt: &W)
        ensures { topic self.new ≡ topic self.old };
}

/// No work beside the work phases.
#[derive(Clone, Copy, PartialEq, Eq)]
pub struct Nothing;

impl<N, P: Process<N>> Beside<N, P> for Nothing {
    ghost Topic = { Unit {0} };

    ghost topic = { λ nothing. tt };

    fn prepare(&mut self, jobs: &[Job<P>]) {
        let _jobs = jobs;
    }

    fn act<W: Wait>(&mut self, rt: &W) {
        let _rt = rt;
    }
}

/// What is done beside the work phases, in three threads.
#[derive(Drop)]
pub struct Trio<A, B> {
    pub main: A,
    pub first: B,
    pub second: B,
}

impl Trio<Nothing, Nothing> {
    /// Nothing is done beside the work phases.
    pub const NOTHING: Trio<Nothing, Nothing> = Trio {
        main: Nothing,
        first: Nothing,
        second: Nothing,
    };
}

fn prepare<N, P: Process<N>, A: Beside<N, P>, B: Beside<N, P>>(
    jobs: &[Job<P>],
    beside: &mut Trio<A, B>,
)
    ensures { topics A.topic B.topic beside.new ≡ topics A.topic B.topic beside.old }
{
    beside.main.prepare(jobs);
    beside.first.prepare(jobs);
    beside.second.prepare(jobs);
}

fn act_both<N: Sync, P: Process<N> + Send, B: Beside<N, P> + Send, W: Threads + Wait + Sync>(
    rt: &W,
    first: &mut B,
    second: &mut B,
)
    ensures first { B.topic first.new ≡ B.topic first.old }
    ensures second { B.topic second.new ≡ B.topic second.old }
{
    join_mut(rt, &mut || first.act(rt), &mut || second.act(rt));
}

fn act<
    N: Sync,
    P: Process<N> + Send,
    A: Beside<N, P> + Send,
    B: Beside<N, P> + Send,
    W: Threads + Wait + Sync,
>(rt: &W, beside: &mut Trio<A, B>)
    ensures { topics A.topic B.topic beside.new ≡ topics A.topic B.topic beside.old }
{
    let main = &mut beside.main;
    let first = &mut beside.first;
    let second = &mut beside.second;
    join_mut(
        rt,
        &mut || main.act(rt),
        &mut || act_both::<N, P, B, W>(rt, first, second),
    );
}

// Does all jobs of a work phase in place, so that one clause covers them all.
fn work_on<N: Sync, P: Process<N> + Send + Drop, W: Threads + Wait + Sync, G: Gate + Sync>(
    rt: &W,
    alloc: Global,
    net: &N,
    jobs: &mut Vec<Job<P>>,
    gate: &G,
)
    requires { CanWork P.state P.is_of net.now jobs.old.items }
    ensures { HaveAllWorked P.state P.is_of P.causes net.now jobs.old.items jobs.new.items }
{
    let ready = replace(jobs, Vec::new(alloc));
    *jobs = workers(rt, alloc, net, ready, gate);
}

/// Does the jobs of a work phase and the other work beside them, and returns the jobs in order.
/// Each job and each piece of the other work has a thread of its own, and all threads are joined;
/// no clause says so, nor that the other work is done, which a test counts.
pub fn workers_beside<
    N: Sync,
    P: Process<N> + Send + Drop,
    A: Beside<N, P> + Send,
    B: Beside<N, P> + Send,
    W: Threads + Wait + Sync,
    G: Gate + Sync,
>(
    rt: &W,
    alloc: Global,
    net: &N,
    jobs: Vec<Job<P>>,
    beside: &mut Trio<A, B>,
    gate: &G,
) -> Vec<Job<P>>
    requires ready { CanWork P.state P.is_of net.now jobs.items }
    ensures worked { HaveAllWorked P.state P.is_of P.causes net.now jobs.items result.items }
    ensures topics { topics A.topic B.topic beside.new ≡ topics A.topic B.topic beside.old }
{
    let mut jobs = jobs;
    prepare(&jobs, beside);
    join_mut(
        rt,
        &mut || act::<N, P, A, B, W>(rt, beside),
        &mut ||
            requires { CanWork P.state P.is_of net.now jobs.items }
        { work_on(rt, alloc, net, &mut jobs, gate) },
    );
    jobs
}
