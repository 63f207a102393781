//! Bounds of histories: compatibility, meets and joins, and their laws, which the proof of
//! agreement uses.
#![tactic(auto)]

mod compatibles;
mod joins;
pub mod laws;
mod marks;
mod meets;

pub use compatibles::compatible;
pub use joins::{join, join_all, join_onto};
pub use meets::{meet, meet_all};
