//! Runs that are settled before they are closed.
ghost use Rattle.std.specs.Prelude.{◌≡◌, ℕ, true, None, length};
ghost use Rattle.std.specs.List.{All};
ghost use Rattle.gp_vlog.specs.Logs.{IsReady};
ghost use Rattle.gp_wire.specs.Lists.{IsDistinct};
ghost use Rattle.gp_shelf.specs.Lists.{HasRoomFor};
ghost use Rattle.gp_stage.specs.Held.{AreAllNodes, AreUp};
ghost use Rattle.gp_cluster.specs.Cells.{AreCellsAt, HasLearned, logs_of};
ghost use Rattle.gp_cluster.specs.Closing.{Leaves, end_of};

use crate::closing::{Closed, close, leave};
use crate::gathering::have_learned;
use gp_cell::PaxosRules;
use gp_driver::StageFault;
use gp_edge::{Disk, Gate};
use gp_ending::RunEnd;
use gp_node::Cell;
use gp_round::Config;
use gp_stage::{CellStage, Unstaged, settle_cells};
use gp_vlog::Log;
use gp_wire::Wire;
use std::alloc::Global;
use std::sync::Wait;

// How a settled run ended.
fn end_of(settled: Result<u64, StageFault>) -> RunEnd
    ensures { result ≡ end_of settled }
{
    match settled {
        Ok(_) => RunEnd::Learned,
        Err(StageFault::NoMemory) => RunEnd::NoMemory,
        Err(StageFault::Disk) => RunEnd::Disk,
        Err(StageFault::Full { size, need }) => RunEnd::Full { size, need },
    }
}

// Settles a run of cells that are all up, and closes its wire.
fn settle_and_close<D: Disk, W: Wait, G: Gate>(
    rt: &W,
    alloc: Global,
    config: Config,
    wire: Wire<PaxosRules>,
    cells: Vec<Cell<D>>,
    room: Vec<Log<D>>,
    gate: &G,
) -> Closed<D>
    requires config { config ≡ wire.rules.config }
    requires nodes { AreAllNodes config wire.nodes }
    requires distinct { IsDistinct wire.nodes }
    requires cells { AreCellsAt wire cells.items }
    requires up { AreUp cells.items }
    requires room { HasRoomFor (length (logs_of cells.items)) room }
    ensures left { (commands : ℕ) → ¬ All (HasLearned commands) cells.items → Leaves D.faults config commands cells.items None result.end result.posted result.logs.items }
    ensures ready { All (λ log. log.ready ≡ true → IsReady D.content D.image log) result.logs.items }
{
    let mut stage = match CellStage::new(alloc, rt, config, wire, gate, cells) {
        Ok(stage) => stage,
        Err(Unstaged { cells, .. }) => return leave(cells, room),
    };
    let end = end_of(settle_cells(rt, &mut stage));
    let (wire, cells) = stage.into_parts();
    close(alloc, wire, cells, room, end)
}

/// Ends a run of cells and closes its wire. If the run ended early, `end` says why, and the run is
/// closed as it is. If `end` is `None`, nothing was left to do, and the cells must be up: the run
/// is settled first if some learner has fewer than `commands` commands. `room` must be empty and
/// have room for the logs.
///
/// Settling only adds to the run. If it did not end with the fault of a disk, no disk's count of
/// faults has risen in it.
///
/// If the wire could not be closed, memory ran out: no list is returned and the end is `NoMemory`.
/// The logs are returned in every case.
pub fn conclude<D: Disk, W: Wait, G: Gate>(
    rt: &W,
    alloc: Global,
    config: Config,
    wire: Wire<PaxosRules>,
    cells: Vec<Cell<D>>,
    room: Vec<Log<D>>,
    end: Option<RunEnd>,
    commands: usize,
    gate: &G,
) -> Closed<D>
    requires config { config ≡ wire.rules.config }
    requires nodes { AreAllNodes config wire.nodes }
    requires distinct { IsDistinct wire.nodes }
    requires cells { AreCellsAt wire cells.items }
    requires up { end ≡ None → AreUp cells.items }
    requires room { HasRoomFor (length (logs_of cells.items)) room }
    ensures left { Leaves D.faults config commands cells.items end result.end result.posted result.logs.items }
    ensures ready { All (λ log. log.ready ≡ true → IsReady D.content D.image log) result.logs.items }
{
    match end {
        Some(end) => close(alloc, wire, cells, room, end),
        None => {
            if have_learned(&cells, commands) {
                close(alloc, wire, cells, room, RunEnd::Learned)
            } else {
                settle_and_close(rt, alloc, config, wire, cells, room, gate)
            }
        }
    }
}
