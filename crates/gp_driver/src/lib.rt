//! Drivers. A driver executes events of all nodes of a run, one after another, until every offered
//! command is learned.
#![tactic(auto)]

pub mod laws;
mod multi_round;
mod phases;
mod single_rounds;
mod stage;
mod sweep;
mod world;

pub use multi_round::drive_multi;
pub use single_rounds::settle;
pub use stage::{Stage, StageFault};
