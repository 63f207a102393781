//! Reading operations on accounts from tokens.
ghost use Rattle.std.specs.Prelude.{◌≡◌, option_map};
ghost use Rattle.gp_words.specs.Tokens.{texts};
ghost use Rattle.gp_store.specs.Forms.{key_of};
ghost use Rattle.gp_bank.specs.Forms.{form_of_name, form_of_key, form_of_amount, form_of_transfer, bank_form, amount_of, bank_op_of_form};
ghost use Rattle.gp_bank.specs.FormViews.{form_view};

use crate::op::BankOp;
use gp_command::Key;
use gp_store::OpFault;
use gp_words::number_of;

/// An operation's name, and the tokens of its keys and its amount.
#[derive(Clone, Copy)]
pub enum BankForm<'a> {
    /// `deposit K V`
    Deposit(&'a [u8], &'a [u8]),
    /// `withdraw K V`
    Withdraw(&'a [u8], &'a [u8]),
    /// `transfer K J V`
    Transfer(&'a [u8], &'a [u8], &'a [u8]),
    /// `balance K`
    Balance(&'a [u8]),
    /// `checkpoint`
    Checkpoint,
}

/// The form that has this name and this number of tokens, or `None` if there is none.
pub fn bank_form<'a>(tokens: &[&'a [u8]]) -> Option<BankForm<'a>>
    ensures { option_map form_view result ≡ bank_form (texts tokens.now) }
{
    match tokens {
        [name] => form_of_name(*name),
        [name, key] => form_of_key(*name, *key),
        [name, key, amount] => form_of_amount(*name, *key, *amount),
        [name, from, into, amount] => form_of_transfer(*name, *from, *into, *amount),
        _ => None,
    }
}

fn form_of_name<'a>(name: &'a [u8]) -> Option<BankForm<'a>>
    ensures { option_map form_view result ≡ form_of_name name.now }
{
    if name == b"checkpoint".as_slice() {
        Some(BankForm::Checkpoint)
    } else {
        None
    }
}

fn form_of_key<'a>(name: &'a [u8], key: &'a [u8]) -> Option<BankForm<'a>>
    ensures { option_map form_view result ≡ form_of_key name.now key.now }
{
    if name == b"balance".as_slice() {
        Some(BankForm::Balance(key))
    } else {
        None
    }
}

fn form_of_amount<'a>(name: &'a [u8], key: &'a [u8], amount: &'a [u8]) -> Option<BankForm<'a>>
    ensures { option_map form_view result ≡ form_of_amount name.now key.now amount.now }
{
    if name == b"deposit".as_slice() {
        Some(BankForm::Deposit(key, amount))
    } else if name == b"withdraw".as_slice() {
        Some(BankForm::Withdraw(key, amount))
    } else {
        None
    }
}

fn form_of_transfer<'a>(
    name: &'a [u8],
    from: &'a [u8],
    into: &'a [u8],
    amount: &'a [u8],
) -> Option<BankForm<'a>>
    ensures { option_map form_view result ≡ form_of_transfer name.now from.now into.now amount.now }
{
    if name == b"transfer".as_slice() {
        Some(BankForm::Transfer(from, into, amount))
    } else {
        None
    }
}

/// The operation of a form. Its tokens are read from left to right, and the first fault is
/// returned: `BadKey` if a token in the place of a key is not a key, and `BadNumber` if a token in
/// the place of an amount is not a number from 0 to 4294967295, or not in its one spelling.
#[tactic(auto, unfolding(crate::specs::Forms::bank_op_of_form))]
pub fn bank_op_of_form(form: BankForm<'_>) -> Result<BankOp, OpFault>
    ensures { result ≡ bank_op_of_form (form_view form.entry) }
{
    match form {
        BankForm::Deposit(key, amount) => {
            let key = key_of(key)?;
            Ok(BankOp::Deposit(key, amount_of(amount)?))
        }
        BankForm::Withdraw(key, amount) => {
            let key = key_of(key)?;
            Ok(BankOp::Withdraw(key, amount_of(amount)?))
        }
        BankForm::Transfer(from, into, amount) => {
            let from = key_of(from)?;
            let into = key_of(into)?;
            Ok(BankOp::Transfer(from, into, amount_of(amount)?))
        }
        BankForm::Balance(key) => Ok(BankOp::Balance(key_of(key)?)),
        BankForm::Checkpoint => Ok(BankOp::Checkpoint),
    }
}

#[tactic(auto, unfolding(gp_store::specs::Forms::key_of))]
fn key_of(token: &[u8]) -> Result<Key, OpFault>
    ensures { result ≡ key_of token.now }
{
    Ok(Key::new(token)?)
}

#[tactic(auto, unfolding(crate::specs::Forms::amount_of))]
fn amount_of(token: &[u8]) -> Result<u32, OpFault>
    ensures { result ≡ amount_of token.now }
{
    match number_of(token) {
        Some(number) if number < 1 << 32 => Ok(number as u32),
        _ => Err(OpFault::BadNumber),
    }
}
