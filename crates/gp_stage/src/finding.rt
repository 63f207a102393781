//! The cell and the move of an event.
ghost use Rattle.std.specs.Prelude.{◌≡◌, ◌↔◌, false, ℕ, Some, slice_get, IfSome, IfNone, IsTrue};
ghost use Rattle.gp_msg.specs.Nodes.{node_of};
ghost use Rattle.gp_work.specs.Moves.{event_of};
ghost use Rattle.gp_cell.specs.Cells.{CellState};
ghost use Rattle.gp_driver.specs.Stages.{is_fall};
ghost use Rattle.gp_stage.specs.Held.{HasCell};

use gp_cell::Cell;
use gp_edge::Disk;
use gp_msg::{Event, Node};
use gp_work::{Move, Process};

/// The node of an event that is not a crash, and the move that the node makes.
pub(crate) fn move_of(event: Event) -> (Node, Move)
    requires { is_fall event ≡ false }
    ensures event { event_of result.0 result.1 ≡ event }
    ensures node { result.0 ≡ node_of event }
{
    match event {
        Event::Offer { proposer, draft } => (Node::Proposer(proposer), Move::Offer(draft)),
        Event::Begin { coordinator, round } => (Node::Coordinator(coordinator), Move::Begin(round)),
        Event::Take { node, message } => (node, Move::Take(message)),
        Event::Fall { .. } => unreachable!(),
    }
}

fn is_node(a: Node, b: Node) -> bool
    ensures { IsTrue result ↔ (a ≡ b) }
{
    a == b
}

/// The place of the cell of a node, if there is one.
pub(crate) fn find<D: Disk>(cells: &[Cell<D>], node: Node) -> Option<usize>
    ensures found { IfSome result (λ at. (c : CellState D) × (slice_get cells.now at ≡ Some c) × (c.node ≡ node)) }
    ensures none { IfNone result (¬ (HasCell node cells.now)) }
{
    for (at, cell) in cells.iter().enumerate() {
        if is_node(cell.node(), node) {
            return Some(at);
        }
    }
    None
}
