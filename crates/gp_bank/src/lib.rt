//! Accounts: a machine of balances, and its operations with their spelling, their footprints, their
//! drafts and their effects.
#![tactic(auto)]

mod amounts;
mod bank;
mod draft;
mod form;
pub mod laws;
mod op;
mod summing;
mod touches;

pub use amounts::Totals;
pub use bank::Bank;
pub use draft::{bank_draft, bank_op};
pub use form::{BankForm, bank_form, bank_op_of_form};
pub use op::{BankOp, write_bank_op};
pub use summing::totals;
