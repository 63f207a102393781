//! The key store, which does the operations of commands.
ghost use Rattle.std.specs.Prelude.{◌≡◌, IfOk, OnOk, OnErr};
ghost use Rattle.std.specs.FinMap.{entries, insert, remove};
ghost use Rattle.gp_store.specs.declared.op.Op.TheVariants.{Cas, Copy};
ghost use Rattle.gp_store.specs.Pairs.{value_at};
ghost use Rattle.gp_store.specs.Effects.{effect, reply, shown, done_if_there, store_rules};

use crate::draft::op_of;
use crate::op::Op;
use gp_command::{Command, Key, NoMemory};
use gp_replica::{Machine, Reply};
use std::alloc::Global;
use std::collections::BTreeMap;
use std::marker::Model;

/// A number below 2^64 at some keys, and none at the others.
///
/// A contract sees a store as the finite map of these pairs. As a machine it is empty at first. A
/// command whose draft is the draft of no operation changes nothing, and its reply is `Absent`.
#[derive(Drop)]
pub struct KeyStore {
    pairs: BTreeMap<Key, u64>,
}

impl Model for KeyStore {
    ghost use Rattle.std.specs.Coded.{coded_ℕ, coded_list};
    ghost use Rattle.std.specs.FinMap.{code};
    ghost use Rattle.gp_store.specs.Pairs.{Pairs, pairs_of};

    ghost Value = { Pairs };

    ghost coded = { code (coded_list coded_ℕ) coded_ℕ };

    ghost view = { λ s. pairs_of s.pairs.entries };
}

impl KeyStore {
    /// The value at the key, or `None` if the key is absent.
    pub fn get(&self, key: Key) -> Option<u64>
        ensures { result ≡ value_at self.now key }
    {
        self.pairs.get(&key).copied()
    }

    /// All keys that are there, with their values, in ascending order of the keys.
    pub fn pairs(&self) -> &BTreeMap<Key, u64>
        ensures { result.now.entries ≡ entries self.now }
    {
        let _len = self.pairs.len();
        &self.pairs
    }

    fn put(&mut self, key: Key, value: u64) -> Result<(), NoMemory>
        ensures put { OnOk result (self.new ≡ insert self.old key value) }
        ensures unchanged { OnErr result (self.new ≡ self.old) }
    {
        match self.pairs.insert(key, value) {
            Ok(_) => Ok(()),
            Err(_) => Err(NoMemory),
        }
    }

    fn remove(&mut self, key: Key) -> Option<u64>
        ensures removed { self.new ≡ remove self.old key }
        ensures found { result ≡ value_at self.old key }
    {
        self.pairs.remove(&key)
    }

    fn run(&mut self, op: Op) -> Result<Reply, NoMemory>
        ensures reply { IfOk result (λ answer. answer ≡ reply self.old op) }
        ensures next { OnOk result (self.new ≡ effect self.old op) }
        ensures unchanged { OnErr result (self.new ≡ self.old) }
    {
        match op {
            Op::Put(key, value) => {
                self.put(key, value)?;
                Ok(Reply::Done)
            }
            Op::Add(key, value) => {
                let sum = self.get(key).unwrap_or(0).wrapping_add(value);
                self.put(key, sum)?;
                Ok(Reply::Done)
            }
            Op::Get(key) => Ok(shown(self.get(key))),
            Op::Del(key) => Ok(done_if_there(self.remove(key))),
            Op::Cas(key, old, new) => self.swap(key, old, new),
            Op::Copy(from, into) => self.copy_value(from, into),
            Op::Checkpoint => Ok(Reply::Done),
        }
    }

    fn swap(&mut self, key: Key, old: u64, new: u64) -> Result<Reply, NoMemory>
        ensures reply { IfOk result (λ answer. answer ≡ reply self.old (Cas key old new)) }
        ensures next { OnOk result (self.new ≡ effect self.old (Cas key old new)) }
        ensures unchanged { OnErr result (self.new ≡ self.old) }
    {
        match self.get(key) {
            Some(found) if found == old => {
                self.put(key, new)?;
                Ok(Reply::Yes)
            }
            _ => Ok(Reply::No),
        }
    }

    fn copy_value(&mut self, from: Key, into: Key) -> Result<Reply, NoMemory>
        ensures reply { IfOk result (λ answer. answer ≡ reply self.old (Copy from into)) }
        ensures next { OnOk result (self.new ≡ effect self.old (Copy from into)) }
        ensures unchanged { OnErr result (self.new ≡ self.old) }
    {
        match self.get(from) {
            Some(value) => {
                self.put(into, value)?;
                Ok(Reply::Done)
            }
            None => Ok(Reply::Absent),
        }
    }
}

impl Machine for KeyStore {
    ghost use Rattle.gp_store.specs.Commuting.{independent};

    ghost rules = { store_rules };

    ghost independent = { independent };

    fn opening(alloc: Global) -> Result<KeyStore, NoMemory> {
        Ok(KeyStore {
            pairs: BTreeMap::new(alloc),
        })
    }

    fn apply(&mut self, c: &Command) -> Result<Reply, NoMemory> {
        let Some(op) = op_of(c.draft()) else {
            return Ok(Reply::Absent);
        };
        self.run(op)
    }
}

// The value, or that the key is absent.
fn shown(found: Option<u64>) -> Reply
    ensures { result ≡ shown found }
{
    match found {
        Some(value) => Reply::Value(value),
        None => Reply::Absent,
    }
}

// Done if the key was there.
fn done_if_there(found: Option<u64>) -> Reply
    ensures { result ≡ done_if_there found }
{
    match found {
        Some(_) => Reply::Done,
        None => Reply::Absent,
    }
}
