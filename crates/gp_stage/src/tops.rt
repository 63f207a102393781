//! The greatest counts of rounds in messages and in cells.
ghost use Rattle.std.specs.Prelude.{◌≡◌, None};
ghost use Rattle.gp_msg.specs.Messages.{message_of, part_of};
ghost use Rattle.gp_run.specs.TopCount.{rounds_of, greatest_count};
ghost use Rattle.gp_run.specs.Runs.{newest_first};
ghost use Rattle.gp_wire.specs.Known.{records};
ghost use Rattle.gp_cell.specs.Cores.{core_at, part_in};
ghost use Rattle.gp_stage.specs.Held.{AreUp};
ghost use Rattle.gp_stage.specs.Tops.{AreTrue, coordinator_top, top_of_part, top_in, top_of_cells};

use gp_cell::Cell;
use gp_edge::Disk;
use gp_msg::{Durable, Msg, Node};
use gp_work::Process;

/// The greatest count of a round in a message, and 0 if there is none.
#[tactic(auto, using(gp_world::proofs::Showing::one_top, gp_world::proofs::Showing::two_tops))]
pub(crate) fn top_of_message(m: &Msg) -> u32
    ensures { result ≡ greatest_count (rounds_of (message_of m.now)) }
{
    match m {
        Msg::Propose { .. } | Msg::Final { .. } => 0,
        Msg::P1a { round, .. } | Msg::P2a { round, .. } | Msg::P2b { round, .. } => round.count,
        Msg::P1b { round, voted, .. } => round.count.max(voted.count),
    }
}

// The greatest count of the rounds in a durable part.
fn top_of_part(part: &Durable) -> u32
    ensures { result ≡ top_of_part (part_of part.now).part }
{
    match part {
        Durable::Acceptor { round, voted, .. } => round.count.max(voted.count),
        Durable::Coordinator { round, .. } => round.count,
    }
}

/// The greatest count of the rounds in the durable part of a cell that is up, and 0 if it has no
/// such part.
pub(crate) fn top_of_cell<D: Disk>(cell: &Cell<D>) -> u32
    ensures top { cell.now.down ≡ None → result ≡ top_in (part_in cell.now.core) }
    ensures core { cell.now.core ≡ core_at cell.now.config cell.now.node (newest_first (records cell.now.pass)) }
{
    let _down = cell.is_down();
    match cell.durable() {
        Some(part) => top_of_part(part),
        None => 0,
    }
}

// The count of the round of a coordinator that is up, and 0 for any other node.
fn top_of_coordinator<D: Disk>(cell: &Cell<D>) -> u32
    ensures top { cell.now.down ≡ None → result ≡ coordinator_top cell.now.node (top_in (part_in cell.now.core)) }
    ensures core { cell.now.core ≡ core_at cell.now.config cell.now.node (newest_first (records cell.now.pass)) }
{
    let top = top_of_cell(cell);
    match cell.node() {
        Node::Coordinator(_) => top,
        _ => 0,
    }
}

/// The greatest count of a coordinator's round among cells that are all up, and 0 if there is none.
pub(crate) fn top_of_cells<D: Disk>(cells: &[Cell<D>]) -> u32
    ensures top { AreUp cells.now → result ≡ top_of_cells cells.now }
    ensures cores { AreTrue cells.now }
{
    let mut top = 0;
    for cell in cells {
        top = top.max(top_of_coordinator(cell));
    }
    top
}
