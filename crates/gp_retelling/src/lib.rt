//! Turns the records that nodes posted into a run: the world that their events lead to, its trace
//! and its report.
#![tactic(auto)]

mod texts;
mod views;
mod worlds;

pub use texts::run_text;
pub use views::views_text;
pub use worlds::world_of;
