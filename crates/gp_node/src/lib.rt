//! Nodes that run in threads: cells with their logs, work phases, and the list that they posted.
#![tactic(auto)]

pub mod laws;
mod phase;
mod posted;

pub use gp_cell::{Cell, Core, MOST_RECORDS, PaxosRules, Plan, Unmade};
pub use gp_work::{JobFault, Move, Moves, RiseFault, StepFault};
pub use phase::{Job, workers};
pub use posted::{Finished, Posted, Unfinished, finish};
