//! The list of a wire that has ended.
ghost use Rattle.std.specs.Prelude.{◌≡◌, ◌≤◌, [], length, map, vec_capacity, IfOk, IfErr};
ghost use Rattle.gp_run.specs.Legal.{Legal};
ghost use Rattle.gp_run.specs.Runs.{newest_first};
ghost use Rattle.gp_wire.specs.Ends.{Closed};
ghost use Rattle.gp_cell.specs.Lawful.{paxos_legal};
ghost use Rattle.gp_cell.specs.Cells.{pass_of, log_of};
ghost use Rattle.gp_cell.specs.Endings.{AreAllCells};

use gp_cell::{Cell, PaxosRules};
use gp_edge::Disk;
use gp_msg::{Record, Records};
use gp_vlog::Log;
use gp_wire::{Pass, Wire};
use std::alloc::Global;
use std::marker::Model;

/// The records that the cells of a wire posted, in their order. Only `finish` makes one, and it
/// cannot be copied. A cell begins without a record of its node, and only `step` and `rise` post
/// for that node. So each record was posted by a call of `step` or `rise`. A contract sees a list.
#[derive(Drop)]
pub struct Posted {
    records: Records,
}

impl Model for Posted {
    ghost use Rattle.std.specs.Prelude.{List};
    ghost use Rattle.gp_msg.specs.declared.record.Record.{Record};

    ghost Value = { List Record };

    ghost view = { λ p. p.records };
}

impl Posted {
    /// The records, the oldest first.
    pub fn records(&self) -> &[Record]
        ensures { result.now ≡ self.now }
    {
        self.records.as_slice()
    }
}

/// What remains of a wire and its cells: the list, and the logs in the order of the cells.
#[derive(Drop)]
pub struct Finished<D: Disk> {
    pub posted: Posted,
    pub logs: Vec<Option<Log<D>>>,
}

/// The wire and its cells, if memory ran out. The wire is not closed.
#[derive(Drop)]
pub struct Unfinished<D: Disk> {
    pub wire: Wire<PaxosRules>,
    pub cells: Vec<Cell<D>>,
}

/// Closes a wire with the passes of its cells, which together hold all its nodes. The list that was
/// posted is a legal run. What each pass has seen is a beginning of it, and of each node it has
/// exactly the records that the pass which holds the node has seen. If memory runs out, the wire
/// and the cells come back.
pub fn finish<D: Disk>(
    alloc: Global,
    wire: Wire<PaxosRules>,
    cells: Vec<Cell<D>>,
) -> Result<Finished<D>, Unfinished<D>>
    requires { AreAllCells wire cells.items }
    ensures closed { IfOk result (λ f. Closed (paxos_legal wire.rules.config) wire.nodes (map pass_of cells.items) f.posted) }
    ensures legal { IfOk result (λ f. Legal wire.rules.config (newest_first f.posted)) }
    ensures logs { IfOk result (λ f. f.logs.items ≡ map log_of cells.items) }
    ensures back { IfErr result (λ u. (u.wire ≡ wire) × (u.cells ≡ cells)) }
{
    let mut passes = Vec::new(alloc);
    let mut logs = Vec::new(alloc);
    if passes.reserve(cells.len()).is_err() || logs.reserve(cells.len()).is_err() {
        return Err(Unfinished { wire, cells });
    }
    part(cells, &mut passes, &mut logs);
    let records = wire.close(passes);
    let posted = Posted { records };
    Ok(Finished { posted, logs })
}

// The passes and the logs of cells, in their order.
fn part<D: Disk>(cells: Vec<Cell<D>>, passes: &mut Vec<Pass>, logs: &mut Vec<Option<Log<D>>>)
    requires passes { (passes.old.items ≡ []) × (length cells.items ≤ vec_capacity passes.old) }
    requires logs { (logs.old.items ≡ []) × (length cells.items ≤ vec_capacity logs.old) }
    ensures passes { passes.new.items ≡ map pass_of cells.items }
    ensures logs { logs.new.items ≡ map log_of cells.items }
{
    let mut left = cells;
    left.reverse();
    while let Some(cell) = left.pop() {
        let (pass, log) = cell.into_parts();
        passes.push_reserved(pass);
        logs.push_reserved(log);
    }
}
