//! The disks of a program. Those of the nodes of a run become logs, and all disks come back in
//! order.
#![tactic(auto)]

pub mod laws;
mod making;
mod moving;
mod places;
mod shelf;

pub use making::LendFault;
pub use places::{DISKS, place_of};
pub use shelf::{Lent, Shelf, Unlent, give_back, lend};
