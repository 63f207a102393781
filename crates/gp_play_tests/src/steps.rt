//! Operations as steps, whose keys are byte strings, for tables.
use gp_bank::{BankOp, bank_draft};
use gp_command::{Draft, Key};
use std::alloc::Global;
use std::test::Fail;

pub const A: &[u8] = b"a";

pub const B: &[u8] = b"b";

pub const C: &[u8] = b"c";

/// An operation with its keys and its amount.
#[derive(Clone, Copy)]
pub enum Step {
    Deposit(&'static [u8], u32),
    Withdraw(&'static [u8], u32),
    Transfer(&'static [u8], &'static [u8], u32),
    Balance(&'static [u8]),
    Checkpoint,
}

/// The operation of a step.
pub fn op(step: Step) -> Result<BankOp, Fail> {
    Ok(match step {
        Step::Deposit(key, amount) => BankOp::Deposit(Key::new(key)?, amount),
        Step::Withdraw(key, amount) => BankOp::Withdraw(Key::new(key)?, amount),
        Step::Transfer(from, into, amount) => {
            BankOp::Transfer(Key::new(from)?, Key::new(into)?, amount)
        }
        Step::Balance(key) => BankOp::Balance(Key::new(key)?),
        Step::Checkpoint => BankOp::Checkpoint,
    })
}

/// The draft of a step.
pub fn draft(alloc: Global, step: Step) -> Result<Draft, Fail> {
    Ok(bank_draft(alloc, op(step)?)?)
}
