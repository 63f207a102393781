//! The drafts of operations on accounts.
ghost use Rattle.std.specs.Prelude.{◌≡◌, Some, IfOk, IfSome};
ghost use Rattle.gp_words.specs.Tokens.{tokens_of};
ghost use Rattle.gp_bank.specs.declared.op.BankOp.{BankOp};
ghost use Rattle.gp_bank.specs.Operations.{IsBankOp, bank_draft_for, bank_text};
ghost use Rattle.gp_bank.specs.Forms.{bank_op_spelled};
ghost use Rattle.gp_store.specs.Drafts.{same_draft};
ghost use Rattle.gp_bank.specs.Drafts.{bank_op};

use crate::form::{bank_form, bank_op_of_form};
use crate::op::{BankOp, write_bank_op};
use crate::touches::Touches;
use gp_command::{Draft, NoMemory};
use gp_store::{checkpoint_draft, few_tokens, touching_draft};
use std::alloc::Global;

/// The draft of a command that does the operation. `NoMemory` if memory runs out.
pub fn bank_draft(alloc: Global, op: BankOp) -> Result<Draft, NoMemory>
    ensures { IfOk result (λ draft. draft ≡ bank_draft_for op) }
{
    let mut text = Vec::new(alloc);
    write_bank_op(&op, &mut text)?;
    if op.is_checkpoint() {
        checkpoint_draft(alloc, &text)
    } else {
        touching_draft(alloc, Touches::of(&op).as_slice(), &text)
    }
}

/// The operation whose draft this is, or `None` exactly if it is the draft of no operation. The
/// call cannot run out of memory.
pub fn bank_op(draft: &Draft) -> Option<BankOp>
    ensures found { IfSome result (λ op. IsBankOp op × (draft.now ≡ bank_draft_for op)) }
    ensures only { (op : BankOp) → IsBankOp op → draft.now ≡ bank_draft_for op → result ≡ Some op }
    ensures exact { result ≡ bank_op draft.now }
{
    drafted_op(draft)
}

#[tactic(auto, unfolding(crate::specs::Drafts::bank_op))]
fn drafted_op(draft: &Draft) -> Option<BankOp>
    ensures { result ≡ bank_op draft.now }
{
    let op = spelled_op(draft.body())?;
    if is_draft_for(draft, &op) {
        Some(op)
    } else {
        None
    }
}

fn is_draft_for(draft: &Draft, op: &BankOp) -> bool
    requires { draft.now.body ≡ bank_text op.now }
    ensures { result ≡ same_draft draft.now (bank_draft_for op.now) }
{
    draft.is_checkpoint() == op.is_checkpoint() && draft.foot() == Touches::of(op).as_slice()
}

#[tactic(auto, unfolding(crate::specs::Forms::bank_op_spelled))]
fn spelled_op(text: &[u8]) -> Option<BankOp>
    ensures { result ≡ bank_op_spelled (tokens_of text.now) }
{
    let (tokens, count) = few_tokens(text)?;
    let form = bank_form(&tokens[..count])?;
    bank_op_of_form(form).ok()
}
