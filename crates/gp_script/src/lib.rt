//! The lines of a script: which words they have, and what they say.
#![tactic(auto)]

mod fault;
mod forms;
mod items;
pub mod laws;
mod names;
mod reason;

pub use fault::LineFault;
pub use forms::{Form, KeptForm, form_of};
pub use items::{Item, config_of, item_of};
pub use reason::Reason;
