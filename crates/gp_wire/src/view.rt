//! What a seat at the table knows. No value of these types is made.
use gp_msg::{Node, Record};
use std::collections::LinkedList;

/// A record, and the number of the turn in which it was posted.
pub struct Post {
    pub item: Record,
    pub turn: u64,
}

/// The position of a seat in the order of turns.
pub enum Standing {
    /// It has no ticket.
    Idle,
    /// It has a ticket.
    Waiting(u64),
    /// It has the turn of its ticket, and the slot.
    Serving(u64),
}

/// What a seat knew before a join, with the nodes that came with it.
pub struct Old {
    pub nodes: LinkedList<Node>,
    pub seen: LinkedList<Post>,
    pub turn: Option<u64>,
}

/// What a seat knows.
pub struct View {
    /// All nodes of the wire.
    pub all: LinkedList<Node>,
    /// The nodes that it holds.
    pub nodes: LinkedList<Node>,
    /// The beginning of the list that it has seen.
    pub seen: LinkedList<Post>,
    /// Its position in the order of turns.
    pub standing: Standing,
    /// The last turn that it had.
    pub turn: Option<u64>,
    /// What it knew before each join that it has not learned from yet.
    pub olds: LinkedList<Old>,
}
