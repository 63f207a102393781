//! The drafts of operations.
ghost use Rattle.std.specs.Prelude.{◌≡◌, ◌<◌, ◌≤◌, Some, None, IfOk, IfSome, MatchOption, length, take};
ghost use Rattle.gp_command.specs.Refusal.{touching, checkpoint_of, long_body, refusal};
ghost use Rattle.gp_words.specs.Tokens.{texts, tokens_of};
ghost use Rattle.gp_store.specs.declared.op.Op.{Op};
ghost use Rattle.gp_store.specs.Operations.{IsOp, draft_for, op_text};
ghost use Rattle.gp_store.specs.Forms.{op_spelled};
ghost use Rattle.gp_store.specs.Drafts.{op_of, same_draft};

use crate::form::{op_form, op_of_form};
use crate::op::{Op, write_op};
use crate::touches::Touches;
use gp_command::{Draft, DraftRefused, NoMemory, Touch};
use gp_words::split_token;
use std::alloc::Global;

/// The greatest number of tokens in an operation's spelling.
pub const MOST_TOKENS: usize = 4;

/// The draft of a command that does the operation. `NoMemory` if memory runs out.
pub fn draft_of(alloc: Global, op: Op) -> Result<Draft, NoMemory>
    ensures { IfOk result (λ draft. draft ≡ draft_for op) }
{
    let mut text = Vec::new(alloc);
    write_op(&op, &mut text)?;
    if op.is_checkpoint() {
        checkpoint_draft(alloc, &text)
    } else {
        touching_draft(alloc, Touches::of(&op).as_slice(), &text)
    }
}

/// The draft of a checkpoint with this text, which is not too long for a body. `NoMemory` if memory
/// runs out.
pub fn checkpoint_draft(alloc: Global, text: &[u8]) -> Result<Draft, NoMemory>
    requires { long_body text.now ≡ None }
    ensures { IfOk result (λ draft. draft ≡ checkpoint_of text.now) }
{
    match Draft::checkpoint(alloc, text) {
        Ok(draft) => Ok(draft),
        Err(refused) => Err(want_of_memory(refused)),
    }
}

/// The draft with this footprint and this text, which `Draft::new` does not refuse. `NoMemory` if
/// memory runs out.
pub fn touching_draft(alloc: Global, foot: &[Touch], text: &[u8]) -> Result<Draft, NoMemory>
    requires { refusal foot.now text.now ≡ None }
    ensures { IfOk result (λ draft. draft ≡ touching foot.now text.now) }
{
    match Draft::new(alloc, foot, text) {
        Ok(draft) => Ok(draft),
        Err(refused) => Err(want_of_memory(refused)),
    }
}

// The draft is refused only if memory runs out.
fn want_of_memory(refused: DraftRefused) -> NoMemory
    requires { refused ≡ DraftRefused.NoMemory }
{
    match refused {
        DraftRefused::NoMemory => NoMemory,
        _ => unreachable!(),
    }
}

/// The operation whose draft this is, or `None` exactly if it is the draft of no operation. The
/// call cannot run out of memory.
pub fn op_of(draft: &Draft) -> Option<Op>
    ensures found { IfSome result (λ op. IsOp op × (draft.now ≡ draft_for op)) }
    ensures only { (op : Op) → IsOp op → draft.now ≡ draft_for op → result ≡ Some op }
    ensures exact { result ≡ op_of draft.now }
{
    drafted_op(draft)
}

#[tactic(auto, unfolding(crate::specs::Drafts::op_of))]
fn drafted_op(draft: &Draft) -> Option<Op>
    ensures { result ≡ op_of draft.now }
{
    let op = spelled_op(draft.body())?;
    if is_draft_for(draft, &op) {
        Some(op)
    } else {
        None
    }
}

fn is_draft_for(draft: &Draft, op: &Op) -> bool
    requires { draft.now.body ≡ op_text op.now }
    ensures { result ≡ same_draft draft.now (draft_for op.now) }
{
    draft.is_checkpoint() == op.is_checkpoint() && draft.foot() == Touches::of(op).as_slice()
}

#[tactic(auto, unfolding(crate::specs::Forms::op_spelled))]
fn spelled_op(text: &[u8]) -> Option<Op>
    ensures { result ≡ op_spelled (tokens_of text.now) }
{
    let (tokens, count) = few_tokens(text)?;
    let form = op_form(&tokens[..count])?;
    op_of_form(form).ok()
}

/// The tokens of a text, in the first places of the array, and how many there are. `None` if there
/// are more than four, which are too many for an operation.
pub fn few_tokens(text: &[u8]) -> Option<([&[u8]; MOST_TOKENS], usize)>
    ensures { MatchOption result (4 < length (tokens_of text.now)) (λ found. (found.1 ≤ 4) × (texts (take found.1 found.0) ≡ tokens_of text.now)) }
{
    let mut tokens = [text; MOST_TOKENS];
    let mut rest = text;
    for i in 0..MOST_TOKENS {
        let (token, behind) = split_token(rest);
        tokens[i] = token;
        match behind {
            Some(more) => rest = more,
            None => return Some((tokens, i + 1)),
        }
    }
    None
}
