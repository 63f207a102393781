//! Reading operations from tokens.
ghost use Rattle.std.specs.Prelude.{◌≡◌, option_map};
ghost use Rattle.gp_words.specs.Tokens.{texts};
ghost use Rattle.gp_store.specs.declared.form.OpFault.TheVariants.{BadKey};
ghost use Rattle.gp_store.specs.Forms.{form_of_name, form_of_key, form_of_pair, form_of_values, op_form, key_of, value_of, op_of_form};
ghost use Rattle.gp_store.specs.FormViews.{form_view};

use crate::op::Op;
use gp_command::Key;
use gp_words::number_of;

/// An operation's name, and the tokens of its keys and values.
#[derive(Clone, Copy)]
pub enum OpForm<'a> {
    /// `put K V`
    Put(&'a [u8], &'a [u8]),
    /// `add K V`
    Add(&'a [u8], &'a [u8]),
    /// `get K`
    Get(&'a [u8]),
    /// `del K`
    Del(&'a [u8]),
    /// `cas K V W`
    Cas(&'a [u8], &'a [u8], &'a [u8]),
    /// `copy K J`
    Copy(&'a [u8], &'a [u8]),
    /// `checkpoint`
    Checkpoint,
}

/// Why the tokens of a form spell no operation.
#[derive(Clone, Copy, Debug, PartialEq, Eq)]
pub enum OpFault {
    /// A token in the place of a key is not a key.
    BadKey,
    /// A token in the place of a number is not a number in the range of the operation (below 2^64
    /// in the key store), or not in its one spelling.
    BadNumber,
}

impl From<gp_command::BadKey> for OpFault {
    ghost from_gives = { λ _ fault. fault ≡ BadKey };

    fn from(_refused: gp_command::BadKey) -> OpFault {
        OpFault::BadKey
    }
}

/// The form that has this name and this number of tokens, or `None` if there is none.
pub fn op_form<'a>(tokens: &[&'a [u8]]) -> Option<OpForm<'a>>
    ensures { option_map form_view result ≡ op_form (texts tokens.now) }
{
    match tokens {
        [name] => form_of_name(*name),
        [name, key] => form_of_key(*name, *key),
        [name, key, other] => form_of_pair(*name, *key, *other),
        [name, key, old, new] => form_of_values(*name, *key, *old, *new),
        _ => None,
    }
}

fn form_of_name<'a>(name: &'a [u8]) -> Option<OpForm<'a>>
    ensures { option_map form_view result ≡ form_of_name name.now }
{
    if name == b"checkpoint".as_slice() {
        Some(OpForm::Checkpoint)
    } else {
        None
    }
}

fn form_of_key<'a>(name: &'a [u8], key: &'a [u8]) -> Option<OpForm<'a>>
    ensures { option_map form_view result ≡ form_of_key name.now key.now }
{
    if name == b"get".as_slice() {
        Some(OpForm::Get(key))
    } else if name == b"del".as_slice() {
        Some(OpForm::Del(key))
    } else {
        None
    }
}

fn form_of_pair<'a>(name: &'a [u8], key: &'a [u8], other: &'a [u8]) -> Option<OpForm<'a>>
    ensures { option_map form_view result ≡ form_of_pair name.now key.now other.now }
{
    if name == b"put".as_slice() {
        Some(OpForm::Put(key, other))
    } else if name == b"add".as_slice() {
        Some(OpForm::Add(key, other))
    } else if name == b"copy".as_slice() {
        Some(OpForm::Copy(key, other))
    } else {
        None
    }
}

fn form_of_values<'a>(
    name: &'a [u8],
    key: &'a [u8],
    old: &'a [u8],
    new: &'a [u8],
) -> Option<OpForm<'a>>
    ensures { option_map form_view result ≡ form_of_values name.now key.now old.now new.now }
{
    if name == b"cas".as_slice() {
        Some(OpForm::Cas(key, old, new))
    } else {
        None
    }
}

/// The operation of a form. Its tokens are read from left to right, and the first fault is
/// returned.
#[tactic(auto, unfolding(crate::specs::Forms::op_of_form))]
pub fn op_of_form(form: OpForm<'_>) -> Result<Op, OpFault>
    ensures { result ≡ op_of_form (form_view form.entry) }
{
    match form {
        OpForm::Put(key, value) => {
            let key = key_of(key)?;
            Ok(Op::Put(key, value_of(value)?))
        }
        OpForm::Add(key, value) => {
            let key = key_of(key)?;
            Ok(Op::Add(key, value_of(value)?))
        }
        OpForm::Get(key) => Ok(Op::Get(key_of(key)?)),
        OpForm::Del(key) => Ok(Op::Del(key_of(key)?)),
        OpForm::Cas(key, old, new) => {
            let key = key_of(key)?;
            let old = value_of(old)?;
            Ok(Op::Cas(key, old, value_of(new)?))
        }
        OpForm::Copy(from, into) => {
            let from = key_of(from)?;
            Ok(Op::Copy(from, key_of(into)?))
        }
        OpForm::Checkpoint => Ok(Op::Checkpoint),
    }
}

#[tactic(auto, unfolding(crate::specs::Forms::key_of))]
fn key_of(token: &[u8]) -> Result<Key, OpFault>
    ensures { result ≡ key_of token.now }
{
    Ok(Key::new(token)?)
}

#[tactic(auto, unfolding(crate::specs::Forms::value_of))]
fn value_of(token: &[u8]) -> Result<u64, OpFault>
    ensures { result ≡ value_of token.now }
{
    number_of(token).ok_or(OpFault::BadNumber)
}
