//! Running nodes: each has its protocol state, its log and its pass at a wire, makes moves, and
//! recovers after its disk failed. The rules of the protocol say which record it may post next.
#![tactic(auto)]

mod cell;
mod found;
pub mod laws;
mod opening;
mod planning;
mod process;
mod rises;
mod rising;
mod roles;
mod rules;
mod steps;
mod writing;

pub use cell::{Cell, Unmade};
pub use planning::Plan;
pub use roles::Core;
pub use rules::PaxosRules;
pub use steps::MOST_RECORDS;
