//! Histories of commands: partial orders in which every two commands that conflict are ordered.
#![tactic(auto)]

mod hist;
pub mod laws;
mod sequence;
mod sequence_history;
pub mod walks;

pub use hist::{Hist, Unpushed};
pub use sequence::{place_of, stands_at};
pub use sequence_history::SeqHistory;
