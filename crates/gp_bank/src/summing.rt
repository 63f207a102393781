//! The sum that a replica of the bank holds, and the sums of its deposits and withdrawals.
ghost use Rattle.std.specs.Prelude.{◌≡◌, ◌<◌, ◌+◌, ◌^◌, length};
ghost use Rattle.std.specs.List.{sum_by};
ghost use Rattle.gp_history.specs.Sequence.{history_of};
ghost use Rattle.gp_replica.specs.Machines.{replies_to, state_of};
ghost use Rattle.gp_bank.specs.Effects.{bank_rules};
ghost use Rattle.gp_bank.specs.Sums.{held, brought, taken, deposits, withdrawals};

use crate::amounts::Totals;
use crate::bank::Bank;
use crate::draft::bank_op;
use crate::op::BankOp;
use gp_command::Key;
use gp_history::Hist;
use gp_replica::{Replica, Reply};
use std::collections::BTreeMap;

/// The sum of the balances of a replica, and the sums of the deposits and of the granted
/// withdrawals that it has run.
///
/// Fewer than 2^32 commands bring no balance past 2^64 - 1, so what they deposited was withdrawn or
/// is held.
pub fn totals(replica: &Replica<Bank>) -> Totals
    ensures held { result.held ≡ held (state_of bank_rules (history_of replica.now)) }
    ensures deposits { result.deposits ≡ deposits replica.now }
    ensures withdrawals { result.withdrawals ≡ withdrawals (replies_to bank_rules replica.now) }
    ensures conserved { length replica.now < 2 ^ 32 → result.held + result.withdrawals ≡ result.deposits }
{
    let ran = replica.ran();
    let replies = replica.replies();
    let mut deposits = 0;
    let mut withdrawals = 0;
    for place in 0..ran.len() {
        let op = bank_op(ran.at(place).draft());
        let (_, reply) = &replies[place];
        deposits += u128::from(brought(&op));
        withdrawals += u128::from(taken(&op, reply));
    }
    let held = held(replica.machine());
    Totals {
        held,
        deposits,
        withdrawals,
    }
}

fn held(bank: &Bank) -> u128
    ensures { result ≡ held bank.now }
{
    sum_of(bank.accounts())
}

fn sum_of(accounts: &BTreeMap<Key, u64>) -> u128
    ensures { result ≡ sum_by (λ e. e.1) accounts.now.entries }
{
    let mut sum = 0;
    for account in accounts.iter() {
        sum = plus(sum, *account.1);
    }
    sum
}

// The sum with one more balance.
fn plus(sum: u128, balance: u64) -> u128
    requires { sum < 2 ^ 127 }
    ensures sum { result ≡ sum + balance }
    ensures step { result < sum + 2 ^ 64 }
{
    sum + u128::from(balance)
}

fn brought(op: &Option<BankOp>) -> u32
    ensures { result ≡ brought op.now }
{
    match op {
        Some(BankOp::Deposit(_, amount)) => *amount,
        _ => 0,
    }
}

fn taken(op: &Option<BankOp>, reply: &Reply) -> u32
    ensures { result ≡ taken op.now reply.now }
{
    match (op, reply) {
        (Some(BankOp::Withdraw(_, amount)), Reply::Yes) => *amount,
        _ => 0,
    }
}
