//! The coordinator: it asks acceptors to join a round, picks a safe value from their answers, and
//! sends it, extended by the commands that are proposed.
#![tactic(auto)]

mod answers;
mod coordinator;
mod part;

pub use coordinator::Coordinator;
