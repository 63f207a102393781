//! The key store, and its operations: their spelling, their footprints, their drafts and their
//! effects.
#![tactic(auto)]

mod draft;
mod form;
pub mod laws;
mod op;
mod store;
mod touches;

pub use draft::{checkpoint_draft, draft_of, few_tokens, op_of, touching_draft};
pub use form::{OpFault, OpForm, op_form, op_of_form};
pub use op::{Op, write_op};
pub use store::KeyStore;
