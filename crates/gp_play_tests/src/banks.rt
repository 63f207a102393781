//! A command that is no operation on accounts.
use crate::stage::holds;
use gp_bank::Bank;
use gp_command::{Command, CommandId, Draft};
use gp_replica::{Machine, Reply};
use std::alloc::Global;
use std::test::Fail;

const FIRST: CommandId = CommandId {
    proposer: 0,
    number: 1,
};

// Whether the bank has this reply to the command with this draft.
fn replies(bank: &mut Bank, draft: Draft, reply: Reply) -> bool {
    let command = Command::new(FIRST, draft);
    match bank.apply(&command) {
        Ok(answer) => answer == reply,
        Err(_) => false,
    }
}

#[test]
fn a_command_that_is_no_operation_changes_nothing(rt: HostRuntime) -> Result<(), Fail> {
    holds(&rt, passes_over(rt.alloc()))
}

fn passes_over(alloc: Global) -> Result<bool, Fail> {
    let mut bank = Bank::opening(alloc)?;
    stays_empty(alloc, &mut bank)
}

fn stays_empty(alloc: Global, bank: &mut Bank) -> Result<bool, Fail> {
    let untouched = Draft::new(alloc, &[], b"deposit a 5")?;
    Ok(replies(bank, untouched, Reply::Absent) && bank.accounts().is_empty())
}
