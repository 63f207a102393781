//! The bank, which does the operations of commands.
ghost use Rattle.std.specs.Prelude.{◌≡◌, IfOk, OnOk, OnErr, IsTrue};
ghost use Rattle.std.specs.FinMap.{entries, insert};
ghost use Rattle.std.specs.Option.{is_some};
ghost use Rattle.gp_store.specs.Pairs.{value_at};
ghost use Rattle.gp_bank.specs.declared.op.BankOp.TheVariants.{Withdraw, Transfer};
ghost use Rattle.gp_bank.specs.Accounts.{balance_at, credited, debited};
ghost use Rattle.gp_bank.specs.Effects.{covers, bank_effect, bank_reply, bank_rules};

use crate::draft::bank_op;
use crate::op::BankOp;
use gp_command::{Command, Key, NoMemory};
use gp_replica::{Machine, Reply};
use std::alloc::Global;
use std::collections::BTreeMap;
use std::marker::Model;

/// Accounts with balances below 2^64. An account is there after an amount has gone to it, and
/// stays.
///
/// A contract sees a bank as the finite map of keys and balances. As a machine it has no account at
/// first. A command whose draft is the draft of no operation changes nothing, and its reply is
/// `Absent`.
#[derive(Drop)]
pub struct Bank {
    accounts: BTreeMap<Key, u64>,
}

impl Model for Bank {
    ghost use Rattle.std.specs.Coded.{coded_ℕ, coded_list};
    ghost use Rattle.std.specs.FinMap.{code};
    ghost use Rattle.gp_store.specs.Pairs.{pairs_of};
    ghost use Rattle.gp_bank.specs.Accounts.{Accounts};

    ghost Value = { Accounts };

    ghost coded = { code (coded_list coded_ℕ) coded_ℕ };

    ghost view = { λ b. pairs_of b.accounts.entries };
}

impl Bank {
    /// All accounts that are there, with their balances, in ascending order of the keys.
    pub fn accounts(&self) -> &BTreeMap<Key, u64>
        ensures { result.now.entries ≡ entries self.now }
    {
        let _len = self.accounts.len();
        &self.accounts
    }

    fn balance(&self, key: Key) -> u64
        ensures { result ≡ balance_at self.now key }
    {
        self.get(key).unwrap_or(0)
    }

    fn get(&self, key: Key) -> Option<u64>
        ensures { result ≡ value_at self.now key }
    {
        self.accounts.get(&key).copied()
    }

    // Memory can run out only if the key is not there.
    fn put(&mut self, key: Key, balance: u64) -> Result<(), NoMemory>
        ensures put { OnOk result (self.new ≡ insert self.old key balance) }
        ensures unchanged { OnErr result (self.new ≡ self.old) }
        ensures there { IsTrue (is_some (value_at self.old key)) → self.new ≡ insert self.old key balance }
    {
        match self.accounts.insert(key, balance) {
            Ok(_) => Ok(()),
            Err(_) => Err(NoMemory),
        }
    }

    fn credit(&mut self, key: Key, amount: u32) -> Result<(), NoMemory>
        ensures credited { OnOk result (self.new ≡ credited self.old key amount) }
        ensures unchanged { OnErr result (self.new ≡ self.old) }
    {
        let sum = self.balance(key).saturating_add(u64::from(amount));
        self.put(key, sum)
    }

    // Memory cannot run out, since only an account that is there is changed.
    fn debit(&mut self, key: Key, amount: u32)
        requires { IsTrue (covers self.old key amount) }
        ensures { self.new ≡ debited self.old key amount }
    {
        if let Some(balance) = self.get(key) {
            let _there = self.put(key, balance - u64::from(amount));
        }
    }

    fn run(&mut self, op: BankOp) -> Result<Reply, NoMemory>
        ensures reply { IfOk result (λ answer. answer ≡ bank_reply self.old op) }
        ensures next { OnOk result (self.new ≡ bank_effect self.old op) }
        ensures unchanged { OnErr result (self.new ≡ self.old) }
    {
        match op {
            BankOp::Deposit(key, amount) => {
                self.credit(key, amount)?;
                Ok(Reply::Done)
            }
            BankOp::Withdraw(key, amount) => Ok(self.withdraw(key, amount)),
            BankOp::Transfer(from, into, amount) => self.transfer(from, into, amount),
            BankOp::Balance(key) => Ok(Reply::Value(self.balance(key))),
            BankOp::Checkpoint => Ok(Reply::Done),
        }
    }

    fn withdraw(&mut self, key: Key, amount: u32) -> Reply
        ensures reply { result ≡ bank_reply self.old (Withdraw key amount) }
        ensures next { self.new ≡ bank_effect self.old (Withdraw key amount) }
    {
        if self.balance(key) < u64::from(amount) {
            return Reply::No;
        }
        self.debit(key, amount);
        Reply::Yes
    }

    fn transfer(&mut self, from: Key, into: Key, amount: u32) -> Result<Reply, NoMemory>
        ensures reply { IfOk result (λ answer. answer ≡ bank_reply self.old (Transfer from into amount)) }
        ensures next { OnOk result (self.new ≡ bank_effect self.old (Transfer from into amount)) }
        ensures unchanged { OnErr result (self.new ≡ self.old) }
    {
        if self.balance(from) < u64::from(amount) {
            return Ok(Reply::No);
        }
        if from != into {
            self.credit(into, amount)?;
            self.debit(from, amount);
        }
        Ok(Reply::Yes)
    }
}

impl Machine for Bank {
    ghost use Rattle.gp_bank.specs.Commuting.{independent};

    ghost rules = { bank_rules };

    ghost independent = { independent };

    fn opening(alloc: Global) -> Result<Bank, NoMemory> {
        Ok(Bank {
            accounts: BTreeMap::new(alloc),
        })
    }

    fn apply(&mut self, c: &Command) -> Result<Reply, NoMemory> {
        let Some(op) = bank_op(c.draft()) else {
            return Ok(Reply::Absent);
        };
        self.run(op)
    }
}
