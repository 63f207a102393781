//! Histories with an index: the place of each command, and where checkpoints divide the order.
#![tactic(auto)]

mod epoch_history;
mod index;
pub mod laws;
mod ordering;
mod parts;
mod windows;

pub use epoch_history::EpochHistory;

/// The representation of histories that nodes and messages use.
pub type History = EpochHistory;
