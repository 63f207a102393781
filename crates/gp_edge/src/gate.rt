//! A gate: a call that each step makes between its decision and its first write.
use gp_msg::Node;

/// What a step calls after it has decided what to do and before it writes anything.
///
/// No contract says what a gate does, so no promise depends on it. Tests use one to see that two
/// nodes step at the same time.
pub trait Gate {
    /// A step of this node has decided and has written nothing yet. `turn` is the number that the
    /// step was given.
    fn at(&self, node: Node, turn: u64);
}

/// A gate that does nothing.
#[derive(Clone, Copy, Debug)]
pub struct Idle;

impl Gate for Idle {
    fn at(&self, _node: Node, _turn: u64) {}
}
