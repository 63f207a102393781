//! The work phases of a run: which rounds begin, which fault decides how the run ends, and laws on
//! phases that end quietly.
#![tactic(auto)]

mod ends;
pub mod laws;
mod working;

pub use ends::RunEnd;
pub use working::{Worked, go_on, work};
