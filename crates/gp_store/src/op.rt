//! Operations and their spelling.
ghost use Rattle.std.specs.Prelude.{◌≡◌, ◌++◌, ◌∷◌, Some, IsTrue, OnOk, OnErr, length, take, decimal};
ghost use Rattle.gp_command.specs.Key.{is_key};
ghost use Rattle.gp_words.specs.Tokens.{tokens_of};
ghost use Rattle.gp_store.specs.declared.op.Op.TheVariants.{Cas, Copy};
ghost use Rattle.gp_store.specs.Operations.{IsOp, is_checkpoint, op_text};
ghost use Rattle.gp_store.specs.Forms.{op_spelled};

use gp_command::{Key, NoMemory};
use gp_words::push_number;

/// What a command does to the store, which has a number below 2^64 at some keys.
#[derive(Clone, Copy, Debug, PartialEq, Eq)]
pub enum Op {
    /// The key gets this value.
    Put(Key, u64),
    /// The number is added to the key's value, modulo 2^64. An absent key counts as 0. The reply
    /// does not show the sum.
    Add(Key, u64),
    /// The reply shows the key's value.
    Get(Key),
    /// The key is removed.
    Del(Key),
    /// If the key has the first value, it gets the second one.
    Cas(Key, u64, u64),
    /// If the first key is there, the second one gets its value.
    Copy(Key, Key),
    /// Nothing is done. Every other command is ordered before it or after it.
    Checkpoint,
}

impl Op {
    pub(crate) fn is_checkpoint(&self) -> bool
        ensures { result ≡ is_checkpoint self.now }
    {
        matches!(self, Op::Checkpoint)
    }
}

/// Appends the spelling of an operation, such as `put K V`. If memory runs out, `to` stays as it
/// was.
///
/// The tokens of what was written are read back as the operation.
pub fn write_op(op: &Op, to: &mut Vec<u8>) -> Result<(), NoMemory>
    ensures written { OnOk result (to.new.items ≡ to.old.items ++ op_text op.now) }
    ensures unchanged { OnErr result (to.new.items ≡ to.old.items) }
    ensures read_again { OnOk result (op_spelled (tokens_of (op_text op.now)) ≡ Some op.now) }
{
    let len = to.len();
    let written = push_op(op, to);
    if written.is_err() {
        to.truncate(len);
    }
    written
}

// The same, but if memory runs out, a part of the spelling may have been appended.
fn push_op(op: &Op, to: &mut Vec<u8>) -> Result<(), NoMemory>
    ensures written { OnOk result (to.new.items ≡ to.old.items ++ op_text op.now) }
    ensures behind { OnErr result (take (length to.old.items) to.new.items ≡ to.old.items) }
    ensures range { OnOk result (IsOp op.now) }
{
    match op {
        Op::Put(key, value) => push_valued(b"put ", key, *value, to),
        Op::Add(key, value) => push_valued(b"add ", key, *value, to),
        Op::Get(key) => push_keyed(b"get ", key, to),
        Op::Del(key) => push_keyed(b"del ", key, to),
        Op::Cas(key, old, new) => push_swap(key, *old, *new, to),
        Op::Copy(from, into) => push_copy(from, into, to),
        Op::Checkpoint => Ok(to.extend_from_slice(b"checkpoint")?),
    }
}

// Appends a word and a key.
fn push_keyed(word: &[u8], key: &Key, to: &mut Vec<u8>) -> Result<(), NoMemory>
    ensures written { OnOk result (to.new.items ≡ to.old.items ++ word.now ++ key.now) }
    ensures behind { OnErr result (take (length to.old.items) to.new.items ≡ to.old.items) }
    ensures key { OnOk result (IsTrue (is_key key.now)) }
{
    to.extend_from_slice(word)?;
    Ok(to.extend_from_slice(key.as_bytes())?)
}

// Appends a word, a key and a number.
fn push_valued(word: &[u8], key: &Key, value: u64, to: &mut Vec<u8>) -> Result<(), NoMemory>
    ensures written { OnOk result (to.new.items ≡ to.old.items ++ word.now ++ key.now ++ 32 ∷ decimal value) }
    ensures behind { OnErr result (take (length to.old.items) to.new.items ≡ to.old.items) }
    ensures key { OnOk result (IsTrue (is_key key.now)) }
{
    push_keyed(word, key, to)?;
    to.push(b' ')?;
    push_number(value, to)
}

fn push_swap(key: &Key, old: u64, new: u64, to: &mut Vec<u8>) -> Result<(), NoMemory>
    ensures written { OnOk result (to.new.items ≡ to.old.items ++ op_text (Cas key.now old new)) }
    ensures behind { OnErr result (take (length to.old.items) to.new.items ≡ to.old.items) }
    ensures key { OnOk result (IsTrue (is_key key.now)) }
{
    push_valued(b"cas ", key, old, to)?;
    to.push(b' ')?;
    push_number(new, to)
}

fn push_copy(from: &Key, into: &Key, to: &mut Vec<u8>) -> Result<(), NoMemory>
    ensures written { OnOk result (to.new.items ≡ to.old.items ++ op_text (Copy from.now into.now)) }
    ensures behind { OnErr result (take (length to.old.items) to.new.items ≡ to.old.items) }
    ensures keys { OnOk result (IsTrue (is_key from.now) × IsTrue (is_key into.now)) }
{
    push_keyed(b"copy ", from, to)?;
    to.push(b' ')?;
    Ok(to.extend_from_slice(into.as_bytes())?)
}
