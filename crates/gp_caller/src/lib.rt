//! The rounds that coordinator 0 begins in a run: in each epoch a multi round, and a single round
//! after a collision in it; or, in a run that adapts, fast rounds, and after collisions multi and
//! then single rounds.
#![tactic(auto)]

mod adapting;
mod policy;
mod rounds;
mod sight;
mod standing;

pub use adapting::AdaptiveCaller;
pub use policy::{CALM, FIRST_FAST_ROUND, FIRST_ROUND, LEADER, mode_after, next_round};
pub use rounds::RoundCaller;
pub use sight::Sight;
