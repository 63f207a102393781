//! The work of one job.
ghost use Rattle.std.specs.Prelude.{◌≡◌, ◌+◌, ◌-◌, ◌^◌, ◌<◌, ◌≤◌, false, true, cond, [], ◌∷◌, ℕ, All, length, slice_index_or, OnOk, IfOk, IfErr, OnErr};
ghost use Rattle.gp_msg.specs.Records.{messages_in};
ghost use Rattle.gp_edge.specs.Faults.{one_more};
ghost use Rattle.gp_work.specs.Doing.{posted, have, Goes, Posted};
ghost use Rattle.gp_work.specs.Moves.{Fits, HasRoom, AllFit, HasOffer};
ghost use Rattle.gp_work.specs.Batches.{IsBatch, is_odd, is_propose, takes_now, takes_late, upward, downward, order};
ghost use Rattle.gp_work.specs.Causes.{Falls};
ghost use Rattle.gp_work.specs.Jobs.{Stretch, CountsSteps, MovesOn, turn_after, Caused, NotRisen, MadeOne, MadeAll, MadeSome, TookAll, TookSome, TookStanding, Looked, Done, Broken, IsReady, HasWorked, IsSameJob};
ghost use Rattle.gp_work.specs.declared.job.Job.{Job};

use crate::faults::{JobFault, RiseFault, StepFault};
use crate::job::Job;
use crate::moves::{Move, Moves};
use crate::process::Process;
use gp_command::NoMemory;
use gp_edge::Gate;
use gp_msg::{MsgKind, Node, reads};
use std::alloc::Global;
use std::sync::Wait;
use std::thread::Threads;
use std::{mem, thread};

// Makes a move, and counts the step. If the disk fails for the first time, the node recovers.
fn make<N, P: Process<N>, W: Wait, G: Gate>(
    rt: &W,
    net: &N,
    job: &mut Job<P>,
    mv: Move,
    gate: &G,
) -> Result<(), JobFault>
    requires own { P.is_of job.old.cell net.now }
    requires up { (P.state job.old.cell).up ≡ true }
    requires fits { Fits (P.state job.old.cell).config (P.state job.old.cell).node mv }
    requires room { HasRoom (posted (P.state job.old.cell)) mv }
    ensures own { P.is_of job.new.cell net.now }
    ensures same { IsSameJob job.old job.new }
    ensures turn { job.new.turn ≡ one_more job.old.turn }
    ensures stretch { Stretch (P.state job.old.cell) job.old.risen (P.state job.new.cell) job.new.risen }
    ensures ok { OnOk result (MadeOne (P.state job.old.cell) job.old.risen mv (P.state job.new.cell) job.new.risen) }
    ensures nothing { OnErr result (Posted (P.state job.old.cell) (P.state job.new.cell) []) }
    ensures cause { IfErr result (Caused job.old.risen job.new.risen (P.state job.old.cell).faults (P.state job.new.cell).faults (P.causes job.new.cell)) }
{
    let turn = job.turn;
    job.turn = turn.saturating_add(1);
    match job.cell.step(rt, net, mv, gate, turn) {
        Ok(_) => Ok(()),
        Err(StepFault::Waiting) => Ok(()),
        Err(StepFault::Disk) => recover(rt, net, job),
        Err(StepFault::NoMemory) => Err(JobFault::NoMemory),
        Err(StepFault::Full { size, need }) => Err(JobFault::Full { size, need }),
    }
}

// The node recovers, unless it did before.
fn recover<N, P: Process<N>, W: Wait>(rt: &W, net: &N, job: &mut Job<P>) -> Result<(), JobFault>
    requires own { P.is_of job.old.cell net.now }
    requires down { (P.state job.old.cell).up ≡ false }
    ensures own { P.is_of job.new.cell net.now }
    ensures same { IsSameJob job.old job.new }
    ensures goes { Goes (P.state job.old.cell) (P.state job.new.cell) }
    ensures turn { job.new.turn ≡ job.old.turn }
    ensures now { job.new.risen ≡ true }
    ensures first { OnOk result (job.old.risen ≡ false) }
    ensures falls { OnOk result (Falls (P.state job.old.cell) (P.state job.new.cell)) }
    ensures up { OnOk result ((P.state job.new.cell).up ≡ true) }
    ensures nothing { OnErr result (Posted (P.state job.old.cell) (P.state job.new.cell) []) }
    ensures cause { IfErr result (NotRisen job.old.risen (P.state job.old.cell).faults (P.state job.new.cell).faults (P.causes job.new.cell)) }
{
    if job.risen {
        return Err(JobFault::Disk);
    }
    job.risen = true;
    match job.cell.rise(rt, net) {
        Ok(_) => Ok(()),
        Err(RiseFault::NoMemory) => Err(JobFault::NoMemory),
        Err(RiseFault::Disk) => Err(JobFault::Disk),
        Err(RiseFault::NotLog { at }) => Err(JobFault::NotLog { at }),
        Err(RiseFault::Changed { found }) => Err(JobFault::Changed { found }),
    }
}

// Makes moves, one after another.
fn make_all<N, P: Process<N>, W: Wait, G: Gate>(
    rt: &W,
    net: &N,
    job: &mut Job<P>,
    moves: Moves,
    gate: &G,
) -> Result<(), JobFault>
    requires own { P.is_of job.old.cell net.now }
    requires up { (P.state job.old.cell).up ≡ true }
    requires fits { AllFit (P.state job.old.cell).config (P.state job.old.cell).node moves }
    requires room { HasOffer moves → posted (P.state job.old.cell) + length moves ≤ 2 ^ 32 - 1 }
    ensures own { P.is_of job.new.cell net.now }
    ensures same { IsSameJob job.old job.new }
    ensures turn { OnOk result (job.new.turn ≡ turn_after job.old.turn (length moves)) }
    ensures stretch { Stretch (P.state job.old.cell) job.old.risen (P.state job.new.cell) job.new.risen }
    ensures ok { OnOk result (MadeAll (P.state job.old.cell) job.old.risen moves (P.state job.new.cell) job.new.risen) }
    ensures some { OnErr result (MadeSome (P.state job.old.cell) job.old.risen moves (P.state job.new.cell)) }
    ensures cause { IfErr result (Caused job.old.risen job.new.risen (P.state job.old.cell).faults (P.state job.new.cell).faults (P.causes job.new.cell)) }
{
    let mut left = moves.items;
    left.reverse();
    while let Some(mv) = left.pop() {
        make(rt, net, job, mv, gate)?;
    }
    Ok(())
}

// The kinds of the messages from the cursor on, up to the end of the list.
fn look<N, P: Process<N>, W: Wait>(
    rt: &W,
    alloc: Global,
    net: &N,
    job: &mut Job<P>,
) -> Result<Vec<MsgKind>, NoMemory>
    requires own { P.is_of job.old.cell net.now }
    requires up { (P.state job.old.cell).up ≡ true }
    ensures own { P.is_of job.new.cell net.now }
    ensures same { IsSameJob job.old job.new }
    ensures turn { job.new.turn ≡ job.old.turn }
    ensures still { job.new.risen ≡ job.old.risen }
    ensures goes { Goes (P.state job.old.cell) (P.state job.new.cell) }
    ensures nothing { Posted (P.state job.old.cell) (P.state job.new.cell) [] }
    ensures up { (P.state job.new.cell).up ≡ true }
    ensures looked { IfOk result (λ kinds. Looked (P.state job.old.cell) job.old.cursor (P.state job.new.cell) kinds.items) }
{
    let cursor = job.cursor;
    let mut kinds = Vec::new(alloc);
    for _ in rt.forever() {
        match job.cell.kind(rt, net, cursor + kinds.len() as u64) {
            Some(kind) => {
                if kinds.push(kind).is_err() {
                    return Err(NoMemory);
                }
            }
            None => return Ok(kinds),
        }
    }
    unreachable!()
}

fn takes_now(node: Node, later: bool, kind: MsgKind) -> bool
    ensures { result ≡ takes_now node later kind }
{
    reads(node, kind) && !(later && is_propose(kind))
}

fn takes_late(node: Node, kind: MsgKind) -> bool
    ensures { result ≡ takes_late node kind }
{
    reads(node, kind) && is_propose(kind)
}

fn is_propose(kind: MsgKind) -> bool
    ensures { result ≡ is_propose kind }
{
    matches!(kind, MsgKind::Propose)
}

// Takes a message that was sent, if it is wanted.
fn take_if<N, P: Process<N>, W: Wait, G: Gate>(
    rt: &W,
    net: &N,
    job: &mut Job<P>,
    k: u64,
    wanted: bool,
    gate: &G,
) -> Result<(), JobFault>
    requires own { P.is_of job.old.cell net.now }
    requires up { (P.state job.old.cell).up ≡ true }
    requires there { k < have (P.state job.old.cell) }
    ensures own { P.is_of job.new.cell net.now }
    ensures same { IsSameJob job.old job.new }
    ensures turn { OnOk result (job.new.turn ≡ turn_after job.old.turn (length (cond wanted (k ∷ []) []))) }
    ensures stretch { Stretch (P.state job.old.cell) job.old.risen (P.state job.new.cell) job.new.risen }
    ensures ok { OnOk result (TookAll (P.state job.old.cell) job.old.risen (cond wanted (k ∷ []) []) (P.state job.new.cell) job.new.risen) }
    ensures nothing { OnErr result (Posted (P.state job.old.cell) (P.state job.new.cell) []) }
    ensures cause { IfErr result (Caused job.old.risen job.new.risen (P.state job.old.cell).faults (P.state job.new.cell).faults (P.causes job.new.cell)) }
{
    if wanted {
        make(rt, net, job, Move::Take(k), gate)
    } else {
        Ok(())
    }
}

// Takes the messages of a batch that the node reads, in order. The proposals are left out if they
// are to be taken later.
fn take_upward<N, P: Process<N>, W: Wait, G: Gate>(
    rt: &W,
    net: &N,
    job: &mut Job<P>,
    kinds: &[MsgKind],
    later: bool,
    gate: &G,
) -> Result<(), JobFault>
    requires own { P.is_of job.old.cell net.now }
    requires up { (P.state job.old.cell).up ≡ true }
    requires batch { IsBatch (messages_in (P.state job.old.cell).list) job.old.cursor kinds.now }
    requires few { job.old.cursor + length kinds.now < 2 ^ 64 }
    ensures own { P.is_of job.new.cell net.now }
    ensures same { IsSameJob job.old job.new }
    ensures turn { OnOk result (job.new.turn ≡ turn_after job.old.turn (length (upward (P.state job.old.cell).node later job.old.cursor kinds.now))) }
    ensures stretch { Stretch (P.state job.old.cell) job.old.risen (P.state job.new.cell) job.new.risen }
    ensures ok { OnOk result (TookAll (P.state job.old.cell) job.old.risen (upward (P.state job.old.cell).node later job.old.cursor kinds.now) (P.state job.new.cell) job.new.risen) }
    ensures some { OnErr result (TookSome (P.state job.old.cell) job.old.risen (P.state job.new.cell)) }
    ensures cause { IfErr result (Caused job.old.risen job.new.risen (P.state job.old.cell).faults (P.state job.new.cell).faults (P.causes job.new.cell)) }
{
    let node = job.cell.node();
    for i in 0..kinds.len() {
        let wanted = takes_now(node, later, kinds[i]);
        take_if(rt, net, job, job.cursor + i as u64, wanted, gate)?;
    }
    Ok(())
}

// Takes the proposals of a batch that the node reads, the newest first.
fn take_downward<N, P: Process<N>, W: Wait, G: Gate>(
    rt: &W,
    net: &N,
    job: &mut Job<P>,
    kinds: &[MsgKind],
    gate: &G,
) -> Result<(), JobFault>
    requires own { P.is_of job.old.cell net.now }
    requires up { (P.state job.old.cell).up ≡ true }
    requires batch { IsBatch (messages_in (P.state job.old.cell).list) job.old.cursor kinds.now }
    requires few { job.old.cursor + length kinds.now < 2 ^ 64 }
    ensures own { P.is_of job.new.cell net.now }
    ensures same { IsSameJob job.old job.new }
    ensures turn { OnOk result (job.new.turn ≡ turn_after job.old.turn (length (downward (P.state job.old.cell).node job.old.cursor kinds.now))) }
    ensures stretch { Stretch (P.state job.old.cell) job.old.risen (P.state job.new.cell) job.new.risen }
    ensures ok { OnOk result (TookAll (P.state job.old.cell) job.old.risen (downward (P.state job.old.cell).node job.old.cursor kinds.now) (P.state job.new.cell) job.new.risen) }
    ensures some { OnErr result (TookSome (P.state job.old.cell) job.old.risen (P.state job.new.cell)) }
    ensures cause { IfErr result (Caused job.old.risen job.new.risen (P.state job.old.cell).faults (P.state job.new.cell).faults (P.causes job.new.cell)) }
{
    let node = job.cell.node();
    for i in (0..kinds.len()).rev() {
        let wanted = takes_late(node, kinds[i]);
        take_if(rt, net, job, job.cursor + i as u64, wanted, gate)?;
    }
    Ok(())
}

fn is_odd(node: Node) -> bool
    ensures { result ≡ is_odd node }
{
    let (Node::Proposer(n) | Node::Coordinator(n) | Node::Acceptor(n) | Node::Learner(n)) = node;
    n % 2 == 1
}

// Takes the messages of a batch that the node reads. A node with an odd number takes the proposals
// after the others, the newest first, so that values can collide.
fn take_batch<N, P: Process<N>, W: Wait, G: Gate>(
    rt: &W,
    net: &N,
    job: &mut Job<P>,
    kinds: &[MsgKind],
    gate: &G,
) -> Result<(), JobFault>
    requires own { P.is_of job.old.cell net.now }
    requires up { (P.state job.old.cell).up ≡ true }
    requires batch { IsBatch (messages_in (P.state job.old.cell).list) job.old.cursor kinds.now }
    requires few { job.old.cursor + length kinds.now < 2 ^ 64 }
    ensures own { P.is_of job.new.cell net.now }
    ensures same { IsSameJob job.old job.new }
    ensures turn { OnOk result (job.new.turn ≡ turn_after job.old.turn (length (order (P.state job.old.cell).node job.old.cursor kinds.now))) }
    ensures stretch { Stretch (P.state job.old.cell) job.old.risen (P.state job.new.cell) job.new.risen }
    ensures ok { OnOk result (TookAll (P.state job.old.cell) job.old.risen (order (P.state job.old.cell).node job.old.cursor kinds.now) (P.state job.new.cell) job.new.risen) }
    ensures some { OnErr result (TookSome (P.state job.old.cell) job.old.risen (P.state job.new.cell)) }
    ensures cause { IfErr result (Caused job.old.risen job.new.risen (P.state job.old.cell).faults (P.state job.new.cell).faults (P.causes job.new.cell)) }
{
    if !is_odd(job.cell.node()) {
        return take_upward(rt, net, job, kinds, false, gate);
    }
    take_upward(rt, net, job, kinds, true, gate)?;
    take_downward(rt, net, job, kinds, gate)
}

// Takes the messages from the cursor on, batch by batch, until there are no more.
fn take_all<N, P: Process<N>, W: Wait, G: Gate>(
    rt: &W,
    alloc: Global,
    net: &N,
    job: &mut Job<P>,
    gate: &G,
) -> Result<(), JobFault>
    requires own { P.is_of job.old.cell net.now }
    requires up { (P.state job.old.cell).up ≡ true }
    ensures own { P.is_of job.new.cell net.now }
    ensures first { job.new.first ≡ job.old.first }
    ensures fault { job.new.fault ≡ job.old.fault }
    ensures cursor { MovesOn job.old.cursor job.new.cursor (have (P.state job.new.cell)) }
    ensures turn { job.old.turn ≤ job.new.turn }
    ensures steps { OnOk result (CountsSteps (P.state job.old.cell).node (messages_in (P.state job.new.cell).list) job.old.cursor job.new.cursor 0 job.old.turn job.new.turn) }
    ensures stretch { Stretch (P.state job.old.cell) job.old.risen (P.state job.new.cell) job.new.risen }
    ensures ok { OnOk result (TookStanding (P.state job.old.cell) job.old.risen job.old.cursor (P.state job.new.cell) job.new.risen job.new.cursor) }
    ensures some { OnErr result (TookSome (P.state job.old.cell) job.old.risen (P.state job.new.cell)) }
    ensures cause { IfErr result (Caused job.old.risen job.new.risen (P.state job.old.cell).faults (P.state job.new.cell).faults (P.causes job.new.cell)) }
{
    for _ in rt.forever() {
        let kinds = match look(rt, alloc, net, job) {
            Ok(kinds) => kinds,
            Err(NoMemory) => return Err(JobFault::NoMemory),
        };
        if kinds.is_empty() {
            return Ok(());
        }
        take_batch(rt, net, job, &kinds, gate)?;
        job.cursor += kinds.len() as u64;
    }
    unreachable!()
}

// Makes the moves of `first`, and takes the messages from the cursor on.
fn run<N, P: Process<N>, W: Wait, G: Gate>(
    rt: &W,
    alloc: Global,
    net: &N,
    job: &mut Job<P>,
    gate: &G,
) -> Result<(), JobFault>
    requires own { P.is_of job.old.cell net.now }
    requires up { (P.state job.old.cell).up ≡ true }
    requires fits { AllFit (P.state job.old.cell).config (P.state job.old.cell).node job.old.first }
    requires room { HasOffer job.old.first → posted (P.state job.old.cell) + length job.old.first ≤ 2 ^ 32 - 1 }
    ensures own { P.is_of job.new.cell net.now }
    ensures first { job.new.first ≡ [] }
    ensures fault { job.new.fault ≡ job.old.fault }
    ensures cursor { MovesOn job.old.cursor job.new.cursor (have (P.state job.new.cell)) }
    ensures turn { job.old.turn ≤ job.new.turn }
    ensures steps { OnOk result (CountsSteps (P.state job.old.cell).node (messages_in (P.state job.new.cell).list) job.old.cursor job.new.cursor (length job.old.first) job.old.turn job.new.turn) }
    ensures stretch { Stretch (P.state job.old.cell) job.old.risen (P.state job.new.cell) job.new.risen }
    ensures ok { OnOk result (Done (P.state job.old.cell) job.old.risen job.old.first job.old.cursor (P.state job.new.cell) job.new.risen job.new.cursor) }
    ensures broken { OnErr result (Broken (P.state job.old.cell) job.old.risen job.old.first (P.state job.new.cell)) }
    ensures cause { IfErr result (Caused job.old.risen job.new.risen (P.state job.old.cell).faults (P.state job.new.cell).faults (P.causes job.new.cell)) }
{
    let first = mem::replace(&mut job.first, Moves::new(alloc));
    make_all(rt, net, job, first, gate)?;
    take_all(rt, alloc, net, job, gate)
}

/// Does a job. It makes the moves of `first`, and then takes the messages, from `cursor` on, that
/// the node reads. After the first failure of its disk in a step the node recovers and goes on. The
/// crash then replaces that move or message. Any other fault except `Waiting` ends the job.
///
/// No clause says in which order messages are taken. They are taken batch by batch; a batch is what
/// was sent when the node looks. A node with an odd number takes the proposals of a batch after the
/// other messages, the newest first.
pub fn work<N, P: Process<N>, W: Wait, G: Gate>(
    rt: &W,
    alloc: Global,
    net: &N,
    job: &mut Job<P>,
    gate: &G,
)
    requires { IsReady P.state P.is_of net.now job.old }
    ensures { HasWorked P.state P.is_of P.causes net.now job.old job.new }
{
    match run(rt, alloc, net, job, gate) {
        Ok(()) => {}
        Err(fault) => job.fault = Some(fault),
    }
}

/// Does the jobs of a work phase, and returns them in order. Each job has a thread of its own, and
/// all threads are joined; no clause says so.
pub fn workers<N: Sync, P: Process<N> + Send, W: Threads + Wait + Sync, G: Gate + Sync>(
    rt: &W,
    alloc: Global,
    net: &N,
    mut jobs: Vec<Job<P>>,
    gate: &G,
) -> Vec<Job<P>>
    requires some { 0 < length jobs.items }
    requires ready { All (λ j. IsReady P.state P.is_of net.now j) jobs.items }
    ensures same { length result.items ≡ length jobs.items }
    ensures each { (i : ℕ) (d : Job P) → i < length jobs.items → HasWorked P.state P.is_of P.causes net.now (slice_index_or jobs.items i d) (slice_index_or result.items i d) }
{
    let count = jobs.len();
    thread::for_each_mut(
        rt,
        jobs.as_mut_slice(),
        count,
        &|_, job| work(rt, alloc, net, job, gate),
    );
    jobs
}
