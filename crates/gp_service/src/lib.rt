//! Services: machines whose operations are spelled in words, as the lines of a script spell them.
#![tactic(auto)]

mod bank;
pub mod laws;
mod service;
mod store;

pub use service::{Service, Unsaid};
