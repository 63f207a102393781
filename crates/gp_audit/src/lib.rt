//! Certificates: why a learner holds each command that it learned.
#![tactic(auto)]

mod certifying;
mod held;
pub mod laws;
mod own;
mod proof;
mod quorums;
mod replay;
mod source;

pub use certifying::certify;
pub use proof::{Cause, Proof, Proofs};
