//! Accounts as a service.
ghost use Rattle.std.specs.Prelude.{◌≡◌, ◌++◌, OnOk, OnErr, Some};
ghost use Rattle.gp_words.specs.Beginnings.{AppendsBeginning};
ghost use Rattle.gp_words.specs.Tokens.{texts};
ghost use Rattle.gp_bank.specs.FormViews.{form_view};
ghost use Rattle.gp_bank.specs.Forms.{bank_op_of_form};
ghost use Rattle.gp_service.specs.Answers.{Answers};
ghost use Rattle.gp_service.specs.Banks.{bank_profile, some_drafted, amount_text, totals_line};
ghost use Rattle.gp_service.specs.BankLaws.{bank_known};

use crate::service::{Service, Unsaid};
use gp_bank::{Bank, BankForm, Totals, bank_draft, bank_form, bank_op_of_form, totals};
use gp_command::{Draft, Key, NoMemory};
use gp_replica::Replica;
use gp_words::push_number;
use itoa::Buffer;
use std::alloc::Global;
use std::collections::BTreeMap;

// The draft of the operation of a form.
fn draft_of_form(alloc: Global, form: BankForm<'_>) -> Result<Draft, Unsaid>
    ensures { Answers (Some (some_drafted (bank_op_of_form (form_view form.entry)))) result }
{
    match bank_op_of_form(form) {
        Ok(op) => match bank_draft(alloc, op) {
            Ok(draft) => Ok(draft),
            Err(_) => Err(Unsaid::NoMemory),
        },
        Err(fault) => Err(Unsaid::Fault(fault)),
    }
}

#[tactic(auto, unfolding(crate::specs::Banks::amount_text))]
fn push_amount(name: &[u8], amount: u128, to: &mut Vec<u8>) -> Result<(), NoMemory>
    ensures written { OnOk result (to.new.items ≡ to.old.items ++ amount_text name.now amount) }
    ensures begun { OnErr result (AppendsBeginning to.old.items to.new.items (amount_text name.now amount)) }
{
    let mut buffer = Buffer::new();
    to.extend_from_slice(name)?;
    to.extend_from_slice(buffer.format(amount).as_bytes())?;
    Ok(())
}

// Appends the line of a learner whose replica has these totals.
fn push_line(learner: u32, totals: Totals, to: &mut Vec<u8>) -> Result<(), NoMemory>
    ensures written { OnOk result (to.new.items ≡ to.old.items ++ totals_line learner totals.held totals.deposits totals.withdrawals) }
    ensures begun { OnErr result (AppendsBeginning to.old.items to.new.items (totals_line learner totals.held totals.deposits totals.withdrawals)) }
{
    to.push(b'l')?;
    push_number(u64::from(learner), to)?;
    push_amount(b" total ", totals.held, to)?;
    push_amount(b" deposits ", totals.deposits, to)?;
    push_amount(b" withdrawals ", totals.withdrawals, to)?;
    Ok(to.push(b'\n')?)
}

impl Service for Bank {
    ghost profile = { bank_profile };

    ghost known = { bank_known };

    #[tactic(auto, unfolding(crate::specs::Banks::bank_language))]
    fn draft(alloc: Global, words: &[&[u8]]) -> Result<Draft, Unsaid> {
        match bank_form(words) {
            Some(form) => draft_of_form(alloc, form),
            None => Err(Unsaid::NoOperation),
        }
    }

    fn pairs(&self) -> &BTreeMap<Key, u64> {
        self.accounts()
    }

    #[tactic(auto, unfolding(crate::specs::Banks::bank_totals))]
    fn push_totals(
        learner: u32,
        replica: &Replica<Bank>,
        to: &mut Vec<u8>,
    ) -> Result<(), NoMemory> {
        push_line(learner, totals(replica), to)
    }
}
