//! The core of a node.
use gp_acceptor::Acceptor;
use gp_coordinator::Coordinator;
use gp_learner::Learner;
use gp_proposer::Proposer;

/// The protocol state of a node, by its role.
#[derive(Drop)]
pub enum Core {
    Proposer(Proposer),
    Coordinator(Coordinator),
    Acceptor(Acceptor),
    Learner(Learner),
}
