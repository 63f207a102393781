//! Operations on accounts and their spelling.
ghost use Rattle.std.specs.Prelude.{◌≡◌, ◌++◌, ◌∷◌, ◌<◌, ◌^◌, Some, IsTrue, OnOk, OnErr, length, take, decimal};
ghost use Rattle.gp_command.specs.Key.{is_key};
ghost use Rattle.gp_words.specs.Tokens.{tokens_of};
ghost use Rattle.gp_bank.specs.declared.op.BankOp.TheVariants.{Transfer};
ghost use Rattle.gp_bank.specs.Operations.{IsBankOp, is_checkpoint, bank_text};
ghost use Rattle.gp_bank.specs.Forms.{bank_op_spelled};

use gp_command::{Key, NoMemory};
use gp_words::push_number;

/// What a command does to a bank, whose accounts have balances from 0 to 2^64 - 1. An absent
/// account counts as one with balance 0.
#[derive(Clone, Copy, Debug, PartialEq, Eq)]
pub enum BankOp {
    /// The amount is added to the account's balance. The balance becomes 2^64 - 1 if the sum is
    /// greater. The reply does not show it.
    Deposit(Key, u32),
    /// If the account has at least the amount, the amount is subtracted from its balance.
    Withdraw(Key, u32),
    /// If the first account has at least the amount, the amount goes from it to the second one. The
    /// second balance becomes 2^64 - 1 if the sum is greater. Nothing moves if the two accounts are
    /// the same.
    Transfer(Key, Key, u32),
    /// The reply shows the account's balance.
    Balance(Key),
    /// Nothing is done. Every other command is ordered before it or after it.
    Checkpoint,
}

impl BankOp {
    pub(crate) fn is_checkpoint(&self) -> bool
        ensures { result ≡ is_checkpoint self.now }
    {
        matches!(self, BankOp::Checkpoint)
    }
}

/// Appends the spelling of an operation, such as `deposit K V`. If memory runs out, `to` stays as
/// it was.
///
/// The tokens of what was written are read back as the operation.
pub fn write_bank_op(op: &BankOp, to: &mut Vec<u8>) -> Result<(), NoMemory>
    ensures written { OnOk result (to.new.items ≡ to.old.items ++ bank_text op.now) }
    ensures unchanged { OnErr result (to.new.items ≡ to.old.items) }
    ensures read_again { OnOk result (bank_op_spelled (tokens_of (bank_text op.now)) ≡ Some op.now) }
{
    let len = to.len();
    let written = push_op(op, to);
    if written.is_err() {
        to.truncate(len);
    }
    written
}

// The same, but if memory runs out, a part of the spelling may have been appended.
fn push_op(op: &BankOp, to: &mut Vec<u8>) -> Result<(), NoMemory>
    ensures written { OnOk result (to.new.items ≡ to.old.items ++ bank_text op.now) }
    ensures behind { OnErr result (take (length to.old.items) to.new.items ≡ to.old.items) }
    ensures range { OnOk result (IsBankOp op.now) }
{
    match op {
        BankOp::Deposit(key, amount) => push_amount(b"deposit ", key, *amount, to),
        BankOp::Withdraw(key, amount) => push_amount(b"withdraw ", key, *amount, to),
        BankOp::Transfer(from, into, amount) => push_transfer(from, into, *amount, to),
        BankOp::Balance(key) => push_keyed(b"balance ", key, to),
        BankOp::Checkpoint => Ok(to.extend_from_slice(b"checkpoint")?),
    }
}

// Appends a word and a key.
fn push_keyed(word: &[u8], key: &Key, to: &mut Vec<u8>) -> Result<(), NoMemory>
    ensures written { OnOk result (to.new.items ≡ to.old.items ++ word.now ++ key.now) }
    ensures behind { OnErr result (take (length to.old.items) to.new.items ≡ to.old.items) }
    ensures key { OnOk result (IsTrue (is_key key.now)) }
{
    to.extend_from_slice(word)?;
    Ok(to.extend_from_slice(key.as_bytes())?)
}

// Appends a word, a key and an amount.
fn push_amount(word: &[u8], key: &Key, amount: u32, to: &mut Vec<u8>) -> Result<(), NoMemory>
    ensures written { OnOk result (to.new.items ≡ to.old.items ++ word.now ++ key.now ++ 32 ∷ decimal amount) }
    ensures behind { OnErr result (take (length to.old.items) to.new.items ≡ to.old.items) }
    ensures key { OnOk result (IsTrue (is_key key.now)) }
    ensures amount { amount < 2 ^ 32 }
{
    push_keyed(word, key, to)?;
    to.push(b' ')?;
    push_number(u64::from(amount), to)
}

fn push_transfer(from: &Key, into: &Key, amount: u32, to: &mut Vec<u8>) -> Result<(), NoMemory>
    ensures written { OnOk result (to.new.items ≡ to.old.items ++ bank_text (Transfer from.now into.now amount)) }
    ensures behind { OnErr result (take (length to.old.items) to.new.items ≡ to.old.items) }
    ensures keys { OnOk result (IsTrue (is_key from.now) × IsTrue (is_key into.now)) }
    ensures amount { amount < 2 ^ 32 }
{
    push_keyed(b"transfer ", from, to)?;
    push_amount(b" ", into, amount, to)
}
