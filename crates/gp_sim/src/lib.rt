//! Runs that no script describes: commands that are driven to all learners, and workloads that are
//! made from a seed and settled.
#![tactic(auto)]

mod driving;
mod simulating;
mod stepping;

pub use driving::{MOST_DRIVEN, drive};
pub use simulating::simulate;
