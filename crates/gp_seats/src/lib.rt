//! The start of a run in threads: a wire with all nodes of a configuration, and a job for each of
//! them.
#![tactic(auto)]

pub mod laws;
mod nodes;
mod offering;
mod seating;
mod seats;

pub use gp_msg::OfferList;
pub use nodes::{Role, all_nodes};
pub use offering::offer_all;
pub use seating::{Seated, Unseated, seat_all};
