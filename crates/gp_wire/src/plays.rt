//! What a seat learns by each step, and how seats are split and joined. No value of these types is
//! made.
ghost use Rattle.gp_wire.specs.Told.{drawn, looked, posted, left_, learned, rest_nodes, first_node, no_nodes, all_nodes, joined, nobody};

use crate::indexed::IndexedRecords;
use crate::view::View;
use atomic_table::{Join, Play, Split};

/// Draws a ticket: a `compare_exchange` of the next ticket.
pub(crate) struct Draw;

impl Play<Option<IndexedRecords>, View> for Draw {
    ghost then = { drawn };
}

/// Looks which ticket is served: a `load`. If it is the seat's own, the seat gets the turn and the
/// slot.
pub(crate) struct Look;

impl Play<Option<IndexedRecords>, View> for Look {
    ghost then = { looked };
}

/// Posts the record at the end of the list in the slot: a `fetch_add` of the number of records.
pub(crate) struct Append;

impl Play<Option<IndexedRecords>, View> for Append {
    ghost then = { posted };
}

/// Gives up the slot and the turn: a `fetch_add` of the ticket that is served.
pub(crate) struct Leave;

impl Play<Option<IndexedRecords>, View> for Leave {
    ghost then = { left_ };
}

/// Learns that the list begins with each of the lists before a join: a `load`.
pub(crate) struct Learn;

impl Play<Option<IndexedRecords>, View> for Learn {
    ghost then = { learned };
}

/// The new seat gets the first node.
pub(crate) struct OneNode;

impl Split<View> for OneNode {
    ghost left = { rest_nodes };

    ghost right = { first_node };
}

/// The new seat gets all nodes.
pub(crate) struct AllNodes;

impl Split<View> for AllNodes {
    ghost left = { no_nodes };

    ghost right = { all_nodes };
}

/// One seat gets the nodes of both, and the longer list.
pub(crate) struct Both;

impl Join<View> for Both {
    ghost both = { joined };

    ghost spent = { nobody };
}
