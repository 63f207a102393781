//! One work phase.
ghost use Rattle.std.specs.Prelude.{◌≡◌, ◌<◌, ℕ, All, length, slice_index_or};
ghost use Rattle.gp_cell.specs.Cells.{CellState};
ghost use Rattle.gp_work.specs.declared.job.Job.{Job as JobOf};
ghost use Rattle.gp_node.specs.Phases.{IsReadyJob, IsWorkedJob};

use gp_cell::{Cell, PaxosRules};
use gp_edge::{Disk, Gate};
use gp_wire::Wire;
use std::alloc::Global;
use std::sync::Wait;
use std::thread::Threads;

/// What one cell is to do in a work phase.
pub type Job<D> = gp_work::Job<Cell<D>>;

/// Does the jobs of one work phase, and returns them in order. Each job has a thread of its own,
/// and all threads are joined; no clause says so.
///
/// A job makes the moves of `first`, and then takes the messages, from `cursor` on, that its role
/// reads, until a look finds no more. After the first failure of its disk in a step the cell
/// recovers by `rise`, and the job goes on. The crash then replaces that move or message. Every
/// other fault except `Waiting` ends the job.
///
/// No clause says in which order messages are taken. They are taken batch by batch, and a node with
/// an odd number takes the proposals of a batch after its other messages, the newest first, so that
/// values can collide.
pub fn workers<D: Disk + Send, W: Threads + Wait + Sync, G: Gate + Sync>(
    rt: &W,
    alloc: Global,
    wire: &Wire<PaxosRules>,
    jobs: Vec<Job<D>>,
    gate: &G,
) -> Vec<Job<D>>
    requires some { 0 < length jobs.items }
    requires ready { All (IsReadyJob D.faults wire.now) jobs.items }
    ensures same { length result.items ≡ length jobs.items }
    ensures each { (i : ℕ) (d : JobOf (CellState D)) → i < length jobs.items
        → IsWorkedJob D.content D.faults wire.now (slice_index_or jobs.items i d) (slice_index_or result.items i d) }
{
    gp_work::workers(rt, alloc, wire, jobs, gate)
}
