//! Rounds that adapt: a coordinator changes to safer rounds after collisions, and changes back
//! after a calm.
#![tactic(auto)]

mod adapt;
mod course;
pub mod laws;
mod scene;

pub use adapt::{Adapt, ChooseMode, MOST_CALM};
pub use course::Course;
pub use scene::{MOST_CLASHES, Scene};
