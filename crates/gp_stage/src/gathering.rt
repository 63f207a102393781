//! Cells whose passes meet.
ghost use Rattle.std.specs.Prelude.{◌≡◌, ◌≢◌, ◌⊎◌, ◌<◌, ℕ, Some, length, slice_get};
ghost use Rattle.gp_cell.specs.Cells.{CellState, IsHeldBy};
ghost use Rattle.gp_stage.specs.Held.{AreReady};
ghost use Rattle.gp_stage.specs.Gathered.{AreGathered, HasMet};

use gp_cell::{Cell, PaxosRules};
use gp_edge::Disk;
use gp_wire::Wire;

/// The cell at one place takes over the nodes that the pass of the cell at the other place holds.
pub(crate) fn meet_at<D: Disk>(
    wire: &Wire<PaxosRules>,
    cells: &mut [Cell<D>],
    at: usize,
    other: usize,
)
    requires here { at < length cells.old }
    requires there { other < length cells.old }
    requires two { at ≢ other }
    requires own { (c : CellState D) → slice_get cells.old at ≡ Some c → c.pass.wire ≡ wire.now.id }
    requires own_too { (c : CellState D) → slice_get cells.old other ≡ Some c → c.pass.wire ≡ wire.now.id }
    requires holder { (a b : CellState D) → slice_get cells.old at ≡ Some a → slice_get cells.old other ≡ Some b
        → IsHeldBy a.node a.pass a.pass ⊎ IsHeldBy a.node a.pass b.pass }
    ensures { HasMet cells.old cells.new at other }
{
    if at < other {
        let (front, back) = cells.split_at_mut(other);
        front[at].meet(wire, &mut back[0]);
    } else {
        let (front, back) = cells.split_at_mut(at);
        back[0].meet(wire, &mut front[other]);
    }
}

/// The first cell meets all others, so that its pass holds all nodes of the wire.
pub(crate) fn gather<D: Disk>(wire: &Wire<PaxosRules>, cells: &mut [Cell<D>])
    requires some { 0 < length cells.old }
    requires ready { AreReady wire.now cells.old }
    ensures { AreGathered wire.now cells.old cells.new (length cells.new) }
{
    let _first = cells[0].is_down();
    for i in 1..cells.len() {
        let _other = cells[i].is_down();
        meet_at(wire, cells, 0, i);
    }
}
