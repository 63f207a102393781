//! Work phases of all nodes, one after another, until every node has seen all that was sent.
#![tactic(auto)]

mod beside;
mod caller;
pub mod laws;
mod phases;
mod starting;

pub use beside::{Beside, Nothing, Trio, workers_beside};
pub use caller::{Call, Caller};
pub use phases::{Phases, PhasesEnd, call_round, run_phases};
pub use starting::call_first;
