//! The error `NoMemory`: a call of any layer returns it if memory runs out.
#![tactic(auto)]

mod memory;

pub use memory::NoMemory;
