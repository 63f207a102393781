//! Ballot rounds, configurations and quorums.
#![tactic(auto)]

mod config;
pub mod laws;
mod round;
mod subsets;

pub use config::{BadCount, Config, LAST_COUNT, Which};
pub use round::{Mode, Round};
pub use subsets::{Subsets, count_members, is_member};
