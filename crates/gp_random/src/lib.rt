//! Workloads: events for a system of three acceptors, three coordinators and two learners, as a
//! function of a seed.
#![tactic(auto)]

mod commands;
mod draws;
pub mod laws;
mod plan;
mod workload;

pub use plan::Plan;
pub use workload::{MOST_COMMANDS, Workload};
