//! The cells of a wire as a stage, so that a driver can settle the run that their threads made.
#![tactic(auto)]

mod cells;
mod finding;
mod gathering;
mod looking;
mod playing;
mod settling;
mod tops;

pub use cells::{CellStage, Unstaged};
pub use settling::{MOST_ENTRIES, MOST_ROUNDS, settle_cells};
