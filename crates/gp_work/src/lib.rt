//! The work of a running node in a work phase: it makes its moves, and then takes what others sent.
#![tactic(auto)]

mod faults;
mod job;
mod moves;
mod process;
mod worker;

pub use faults::{JobFault, RiseFault, StepFault};
pub use job::Job;
pub use moves::{Move, Moves};
pub use process::Process;
pub use worker::{work, workers};
