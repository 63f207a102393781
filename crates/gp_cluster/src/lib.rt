//! Runs of all nodes of a configuration in threads of one process, from disks to disks, and the
//! laws on when every learner holds every command that was offered.
#![tactic(auto)]

mod adapting;
mod closing;
mod gathering;
pub mod laws;
mod policy;
mod running;
mod seated;
mod settling;
mod turning;

pub use gp_ending::RunEnd;
pub use policy::RoundPolicy;
pub use running::{NodesRun, run_nodes};
