//! What happens at one learner.
ghost use Rattle.std.specs.Prelude.{◌≡◌};
ghost use Rattle.gp_audit.specs.Owning.{is_learner, own_event};

use gp_msg::{Event, Node};

/// What an event is to one learner.
#[derive(Clone, Copy, Debug, PartialEq, Eq)]
pub enum OwnEvent {
    /// The learner takes the message with this number.
    Takes(u64),
    /// The learner crashes.
    Falls,
    /// It happens at another node.
    Elsewhere,
}

/// What an event is to a learner.
pub fn own_event(event: &Event, learner: u32) -> OwnEvent
    ensures { result ≡ own_event learner event.now }
{
    match event {
        Event::Take { node, message } => {
            if is_learner(*node, learner) {
                OwnEvent::Takes(*message)
            } else {
                OwnEvent::Elsewhere
            }
        }
        Event::Fall { node, .. } => {
            if is_learner(*node, learner) {
                OwnEvent::Falls
            } else {
                OwnEvent::Elsewhere
            }
        }
        Event::Offer { .. } | Event::Begin { .. } => OwnEvent::Elsewhere,
    }
}

// Whether a node is this learner.
fn is_learner(node: Node, learner: u32) -> bool
    ensures { result ≡ is_learner learner node }
{
    match node {
        Node::Learner(l) => l == learner,
        Node::Proposer(_) | Node::Coordinator(_) | Node::Acceptor(_) => false,
    }
}
