//! What the proposers offer.
ghost use Rattle.std.specs.Prelude.{◌≡◌, ◌<◌, ◌^◌, ◌++◌, ◌∷◌, [], ℕ, true, map, length, slice_index_or, IfOk, OnOk};
ghost use Rattle.std.specs.List.{All};
ghost use Rattle.gp_work.specs.declared.job.Job.{Job as JobOf};
ghost use Rattle.gp_cell.specs.Cells.{CellState};
ghost use Rattle.gp_cell.specs.Working.{process_of};
ghost use Rattle.gp_node.specs.Phases.{IsReadyJob, IsWorkedJob};
ghost use Rattle.gp_phase.specs.Phases.{total};
ghost use Rattle.gp_seats.specs.Nodes.{proposer_nodes};
ghost use Rattle.gp_seats.specs.Seats.{IsNewAt};
ghost use Rattle.gp_seats.specs.Offering.{is_proposer, own_move, moves_of, given_to, node_in, IsKnown, IsDone, HasOffered};

use gp_command::{Draft, NoMemory};
use gp_edge::{Disk, Gate};
use gp_msg::{Node, OfferList};
use gp_node::{Job, Move, Moves, PaxosRules, workers};
use gp_wire::Wire;
use gp_work::Process;
use std::alloc::Global;
use std::sync::Wait;
use std::thread::Threads;

fn is_proposer(node: Node, number: u32) -> bool
    ensures { result ≡ is_proposer node number }
{
    match node {
        Node::Proposer(own) => own == number,
        Node::Coordinator(_) | Node::Acceptor(_) | Node::Learner(_) => false,
    }
}

fn push(moves: &mut Moves, item: Move) -> Result<(), NoMemory>
    ensures { OnOk result (moves.new ≡ moves.old ++ item ∷ []) }
{
    match moves.push(item) {
        Ok(()) => Ok(()),
        Err(refused) => {
            drop(refused);
            Err(NoMemory)
        }
    }
}

// Appends the move by which a node makes an offer, if it is its own.
fn push_own(moves: &mut Moves, node: Node, offer: &(u32, Draft)) -> Result<(), NoMemory>
    ensures { OnOk result (moves.new ≡ moves.old ++ own_move node offer.now) }
{
    if is_proposer(node, offer.0) {
        return push(moves, Move::Offer(offer.1.copy()?));
    }
    Ok(())
}

// The moves by which a node makes its own offers.
fn moves_of(alloc: Global, node: Node, offers: &[(u32, Draft)]) -> Result<Moves, NoMemory>
    ensures { IfOk result (λ moves. moves ≡ moves_of node offers.now) }
{
    let mut moves = Moves::new(alloc);
    for offer in offers {
        push_own(&mut moves, node, offer)?;
    }
    Ok(moves)
}

// Gives a job its own offers to make.
fn give<D: Disk>(alloc: Global, job: &mut Job<D>, offers: &[(u32, Draft)]) -> Result<(), NoMemory>
    ensures { OnOk result (job.new ≡ given_to offers.now job.old) }
{
    job.first = moves_of(alloc, job.cell.node(), offers)?;
    Ok(())
}

// Gives each job its own offers to make. If memory runs out, some of them may have theirs.
fn give_each<D: Disk>(
    alloc: Global,
    jobs: &mut Vec<Job<D>>,
    offers: &[(u32, Draft)],
) -> Result<(), NoMemory>
    ensures { OnOk result (jobs.new.items ≡ map (given_to offers.now) jobs.old.items) }
{
    for i in 0..jobs.len() {
        give(alloc, &mut jobs[i], offers)?;
    }
    Ok(())
}

// New jobs of the proposers at a wire, each with its own offers to make.
fn give_all<D: Disk>(
    alloc: Global,
    wire: &Wire<PaxosRules>,
    jobs: Vec<Job<D>>,
    offers: &[(u32, Draft)],
) -> Result<Vec<Job<D>>, NoMemory>
    requires new { All (IsNewAt D.faults wire.now) jobs.items }
    requires nodes { map node_in jobs.items ≡ proposer_nodes }
    requires few { length offers.now < 2 ^ 32 }
    ensures given { IfOk result (λ given. given.items ≡ map (given_to offers.now) jobs.items) }
    ensures some { IfOk result (λ given. 0 < length given.items) }
    ensures ready { IfOk result (λ given. All (IsReadyJob D.faults wire.now) given.items) }
{
    let mut given = jobs;
    give_each(alloc, &mut given, offers)?;
    Ok(given)
}

// Whether the job has no fault.
fn is_done<D: Disk>(job: &Job<D>) -> bool
    ensures { result ≡ true → IsDone job.now }
{
    let _down = job.cell.is_down();
    job.fault.is_none()
}

fn all_done<D: Disk>(jobs: &[Job<D>]) -> bool
    ensures { result ≡ true → All IsDone jobs.now }
{
    for job in jobs {
        if !is_done(job) {
            return false;
        }
    }
    true
}

/// Posts the offers in one work phase of the proposers alone: each proposer posts its own offers,
/// in their order. `proposers` are new jobs of the eight proposers, and they are returned in the
/// same order. The offers must be fewer than 2^32, each at one of the eight proposers. Returns
/// `NoMemory` if memory runs out, also inside a job; a proposer has no disk that could fail. The
/// wire may then have some of the offers.
pub fn offer_all<D: Disk + Send, W: Threads + Wait + Sync, G: Gate + Sync>(
    rt: &W,
    alloc: Global,
    wire: &Wire<PaxosRules>,
    proposers: Vec<Job<D>>,
    offers: &OfferList,
    gate: &G,
) -> Result<Vec<Job<D>>, NoMemory>
    requires new { All (IsNewAt D.faults wire.now) proposers.items }
    requires nodes { map node_in proposers.items ≡ proposer_nodes }
    requires few { length offers.now < 2 ^ 32 }
    requires known { All IsKnown offers.now }
    ensures size { IfOk result (λ js. length js.items ≡ length proposers.items) }
    ensures offered { IfOk result (λ js. (i : ℕ) (d : JobOf (CellState D)) → i < length proposers.items
        → HasOffered D.faults wire.now offers.now (slice_index_or proposers.items i d) (slice_index_or js.items i d)) }
    ensures worked { IfOk result (λ js. (i : ℕ) (d : JobOf (CellState D)) → i < length proposers.items
        → IsWorkedJob D.content D.faults wire.now (slice_index_or (map (given_to offers.now) proposers.items) i d) (slice_index_or js.items i d)) }
    ensures count { IfOk result (λ js. total (process_of D.faults) 0 js.items ≡ length offers.now) }
{
    let given = give_all(alloc, wire, proposers, offers.as_slice())?;
    let jobs = workers(rt, alloc, wire, given, gate);
    if all_done(&jobs) {
        Ok(jobs)
    } else {
        Err(NoMemory)
    }
}
