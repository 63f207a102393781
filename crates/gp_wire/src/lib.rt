//! The list of records that the nodes of a run share. Each node runs in a thread of its own, and
//! they take turns at the list by tickets. Each node has a pass, which has seen a beginning of the
//! list with all records of the node.
#![tactic(auto)]

mod closing;
mod indexed;
mod key;
pub mod laws;
mod looking;
mod opening;
mod pass;
mod plays;
mod posting;
mod rules;
#[cfg(test)]
mod sharing;
mod turns;
mod view;
mod wire;

pub use indexed::IndexedRecords;
pub use key::{Nodes, WireKey, WireRule};
pub use pass::Pass;
pub use posting::Unposted;
pub use rules::Rules;
pub use view::{Old, Post, Standing, View};
pub use wire::Wire;
