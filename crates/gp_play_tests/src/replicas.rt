//! What replicas of the bank reply, and what they hold.
use crate::histories::{Row, caught_up};
use crate::stage;
use crate::steps::{A, B, C, Step};
use gp_bank::{Bank, Totals, totals};
use gp_command::{CommandId, Key};
use gp_history::Hist;
use gp_replica::{Replica, Reply};
use std::alloc::Global;
use std::process::Abort;
use std::test::Fail;

// The command's proposer and number, and the reply.
type Answer = (u32, u32, Reply);

// Deposits to one account, and transfers to one account, may be run in any order.
static TOGETHER: [Row; 7] = [
    (0, 1, Step::Deposit(A, 10)),
    (1, 1, Step::Deposit(B, 20)),
    (2, 1, Step::Deposit(A, 5)),
    (3, 1, Step::Transfer(A, C, 7)),
    (4, 1, Step::Transfer(B, C, 9)),
    (0, 2, Step::Withdraw(C, 16)),
    (1, 2, Step::Withdraw(B, 100)),
];

// The first commands that another replica learns, before it learns all of them.
static EARLY: [Row; 3] = [
    (2, 1, Step::Deposit(A, 5)),
    (1, 1, Step::Deposit(B, 20)),
    (4, 1, Step::Transfer(B, C, 9)),
];

static ANSWERS: [Answer; 7] = [
    (0, 1, Reply::Done),
    (1, 1, Reply::Done),
    (2, 1, Reply::Done),
    (3, 1, Reply::Yes),
    (4, 1, Reply::Yes),
    (0, 2, Reply::Yes),
    (1, 2, Reply::No),
];

static HELD: [(&'static [u8], u64); 3] = [(A, 8), (B, 11), (C, 0)];

static TOTALS: Totals = Totals {
    held: 19,
    deposits: 35,
    withdrawals: 16,
};

static NOTHING: Totals = Totals {
    held: 0,
    deposits: 0,
    withdrawals: 0,
};

fn is_answered(replica: &Replica<Bank>, row: Answer) -> bool {
    let (proposer, number, reply) = row;
    replica.reply(CommandId { proposer, number }) == Some(reply)
}

// Whether the replies are found under the identities.
fn are_answered(replica: &Replica<Bank>) -> bool {
    for row in &ANSWERS {
        if !is_answered(replica, *row) {
            return false;
        }
    }
    replica.ran().len() == ANSWERS.len()
}

fn holds(replica: &Replica<Bank>, row: (&[u8], u64)) -> bool {
    let (key, balance) = row;
    match Key::new(key) {
        Ok(key) => replica.machine().accounts().get(&key).copied() == Some(balance),
        Err(_) => false,
    }
}

fn holds_all(replica: &Replica<Bank>) -> bool {
    for row in &HELD {
        if !holds(replica, *row) {
            return false;
        }
    }
    replica.machine().accounts().len() == HELD.len()
}

fn has_totals(replica: &Replica<Bank>, wanted: &Totals) -> bool {
    totals(replica) == *wanted
}

// Whether all commands that are run together were run.
fn is_together(replica: &Replica<Bank>) -> bool {
    are_answered(replica) && has_totals(replica, &TOTALS) && holds_all(replica)
}

#[test]
fn a_replica_holds_nothing_at_first(rt: HostRuntime) -> Result<(), Fail> {
    let replica = Replica::<Bank>::new(rt.alloc())?;
    stage::holds(&rt, Ok(has_totals(&replica, &NOTHING)))
}

#[test]
fn a_replica_holds_what_was_not_withdrawn(rt: HostRuntime) -> Result<(), Fail> {
    stage::holds(&rt, holds_the_rest(&rt, rt.alloc()))
}

fn holds_the_rest(rt: &impl Abort, alloc: Global) -> Result<bool, Fail> {
    let mut replica = Replica::new(alloc)?;
    learns_all(rt, alloc, &mut replica, 7)
}

// Whether all commands are run together after this many more.
fn learns_all(
    rt: &impl Abort,
    alloc: Global,
    replica: &mut Replica<Bank>,
    count: usize,
) -> Result<bool, Fail> {
    Ok(caught_up(rt, alloc, replica, &TOGETHER)? == count && is_together(replica))
}

// Whether a replica that learns some commands before the others agrees.
fn agrees_in_another_order(rt: &impl Abort, alloc: Global) -> Result<bool, Fail> {
    let mut replica = Replica::new(alloc)?;
    learns_early(rt, alloc, &mut replica)
}

fn learns_early(rt: &impl Abort, alloc: Global, replica: &mut Replica<Bank>) -> Result<bool, Fail> {
    let early = caught_up(rt, alloc, replica, &EARLY)?;
    Ok(early == 3 && learns_all(rt, alloc, replica, 4)?)
}

#[test]
fn a_replica_that_learns_in_another_order_agrees(rt: HostRuntime) -> Result<(), Fail> {
    stage::holds(&rt, agrees_in_another_order(&rt, rt.alloc()))
}
