//! The right of a node to post to a wire, with what it has seen.
ghost use Rattle.std.specs.Prelude.{◌≡◌, length};

use crate::indexed::IndexedRecords;
use crate::view::View;
use atomic_table::Seat;
use gp_msg::Node;
use std::marker::Model;

pub(crate) type WireSeat = Seat<Option<IndexedRecords>, View>;

/// The pass of one node at one wire. It holds this node until it hands it to another pass, and has
/// seen a beginning of the wire's list, with all records of each node that it holds. It may be
/// moved to a thread. A contract sees what it knows. If a pass is dropped, nobody holds its nodes
/// any more, and the wire cannot be closed.
#[derive(Drop)]
pub struct Pass {
    pub(crate) node: Node,
    pub(crate) seat: WireSeat,
    /// How many records it has seen.
    pub(crate) count: u64,
}

impl Model for Pass {
    ghost use Rattle.std.specs.Prelude.{◌≡◌, length};
    ghost use Rattle.gp_wire.specs.Known.{PassState};
    ghost use Rattle.gp_wire.specs.Turns.{IsIdle};

    ghost Value = { PassState };

    ghost view = { λ p. record { node = p.node; wire = p.seat.table_id; all = p.seat.me.0.all; holds = p.seat.me.0.nodes; seen = p.seat.me.0.seen; turn = p.seat.me.0.turn } };

    ghost invariant = { λ p. IsIdle p.seat.me × (p.count ≡ length p.seat.me.0.seen) };
}

impl Pass {
    /// The node whose pass it is.
    pub fn node(&self) -> Node
        ensures { result ≡ self.now.node }
    {
        self.node
    }

    /// How many records it has seen.
    pub fn seen(&self) -> u64
        ensures { result ≡ length self.now.seen }
    {
        self.count
    }
}
