//! The audit of what a run printed: it checks that the trace is a legal run and that the report is
//! the report of this run.
#![tactic(auto)]

mod answer;
mod auditing;
mod certificates;
mod judging;
pub mod laws;
mod parts;
mod reports;

pub use answer::{Audited, Unaudited};
pub use auditing::audit;
pub use gp_script::Reason;
