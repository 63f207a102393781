//! A job of a work phase.
use crate::faults::JobFault;
use crate::moves::Moves;

/// What one node is to do in a work phase: make the moves of `first`, and then take the messages,
/// from `cursor` on, that its role reads.
#[derive(Drop)]
pub struct Job<P> {
    pub cell: P,
    pub first: Moves,
    /// Where it goes on: it has taken each message below this number that its role reads, except
    /// one that a crash of the node replaced. After a fault inside a batch this is the first number
    /// of the batch, of which some messages may have been taken.
    pub cursor: u64,
    /// How many steps it has tried, up to 2^64 - 1. The gate is given this number. No clause says
    /// when the gate is called or with which number; tests do.
    pub turn: u64,
    /// Whether its disk has failed in a step, so that the node recovered or tried to.
    pub risen: bool,
    /// Why its work ended early, if it did.
    pub fault: Option<JobFault>,
}
