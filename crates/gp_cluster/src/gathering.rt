//! The cells of jobs.
ghost use Rattle.std.specs.Prelude.{◌≡◌, ◌↔◌, ◌≤◌, ◌+◌, ◌++◌, IsTrue, true, false, length, vec_len, vec_capacity};
ghost use Rattle.std.specs.List.{All};
ghost use Rattle.gp_ending.specs.Ended.{cells_of};
ghost use Rattle.gp_cluster.specs.Cells.{IsKnownCell, HasLearned};

use gp_edge::Disk;
use gp_history::Hist;
use gp_node::{Cell, Job};

// The cell of a job.
fn take_cell<D: Disk>(job: Job<D>) -> Cell<D>
    ensures cell { result ≡ job.cell }
    ensures known { IsKnownCell job.cell }
{
    let _down = job.cell.is_down();
    job.cell
}

/// Appends the cells of jobs, in their order. `cells` must have room for them, and its capacity
/// stays.
pub fn take_cells<D: Disk>(jobs: Vec<Job<D>>, cells: &mut Vec<Cell<D>>)
    requires { length jobs.items + vec_len cells.old ≤ vec_capacity cells.old }
    ensures cells { cells.new.items ≡ cells.old.items ++ cells_of jobs.items }
    ensures known { All IsKnownCell (cells_of jobs.items) }
    ensures room { vec_capacity cells.new ≡ vec_capacity cells.old }
{
    let mut left = jobs;
    left.reverse();
    while let Some(job) = left.pop() {
        cells.push_reserved(take_cell(job));
    }
}

// Whether the node of a cell is no learner, or holds at least so many commands.
fn has_learned<D: Disk>(cell: &Cell<D>, commands: usize) -> bool
    ensures { IsTrue result ↔ HasLearned commands cell.now }
{
    match cell.learned() {
        Some(learned) => commands <= learned.len(),
        None => true,
    }
}

/// Whether each learner among the nodes of these cells holds at least so many commands.
pub(crate) fn have_learned<D: Disk>(cells: &[Cell<D>], commands: usize) -> bool
    ensures all { result ≡ true → All (HasLearned commands) cells.now }
    ensures some { result ≡ false → ¬ All (HasLearned commands) cells.now }
{
    for cell in cells {
        if !has_learned(cell, commands) {
            return false;
        }
    }
    true
}
