//! Laws of operations. Each function is there for its contract, which is the law.
ghost use Rattle.std.specs.Prelude.{◌≡◌, ◌≢◌, ◌≤◌, ◌∷◌, ℕ, List, [], false, Some, Ok, All, Contains, length};
ghost use Rattle.gp_command.specs.declared.touch.Access.TheVariants.{Read, Write};
ghost use Rattle.gp_command.specs.declared.touch.Touch.{Touch};
ghost use Rattle.gp_command.specs.declared.command.Command.{Command};
ghost use Rattle.gp_command.specs.Conflict.{same, conflict};
ghost use Rattle.gp_command.specs.Spelling.{IsDraft};
ghost use Rattle.gp_command.specs.Views.{DraftView};
ghost use Rattle.gp_replica.specs.declared.reply.Reply.TheVariants.{Absent};
ghost use Rattle.gp_replica.specs.Machines.{Commute};
ghost use Rattle.gp_words.specs.Bytes.{Lacks};
ghost use Rattle.gp_words.specs.Lines.{is_line_feed};
ghost use Rattle.gp_words.specs.Tokens.{is_space, tokens_of, has_empty};
ghost use Rattle.gp_store.specs.declared.op.Op.{Op};
ghost use Rattle.gp_store.specs.declared.op.Op.TheVariants.{Copy};
ghost use Rattle.gp_store.specs.Operations.{IsOp, op_words, op_text, op_foot, touch, draft_for};
ghost use Rattle.gp_store.specs.Forms.{OpForm, form_for, op_form, op_of_form, op_spelled};
ghost use Rattle.gp_store.specs.Drafts.{op_of};
ghost use Rattle.gp_store.specs.Pairs.{Pairs, value_at};
ghost use Rattle.gp_store.specs.Effects.{effect, reply, after_command, reply_to_command, store_rules};

use crate::op::Op;

/// Every operation has valid keys, and values below 2^64.
pub fn every_operation_is_in_range(op: &Op)
    ensures { IsOp op.now }
{
    match op {
        Op::Put(key, value) | Op::Add(key, value) => {
            let _key = key.as_bytes();
            let _value = *value;
        }
        Op::Get(key) | Op::Del(key) => {
            let _key = key.as_bytes();
        }
        Op::Cas(key, old, new) => {
            let _key = key.as_bytes();
            let _old = *old;
            let _new = *new;
        }
        Op::Copy(from, into) => {
            let _from = from.as_bytes();
            let _into = into.as_bytes();
        }
        Op::Checkpoint => {}
    }
}

/// The tokens of a spelling are the operation's words, and they are read back as the operation.
pub fn a_spelling_is_read_again()
    ensures tokens { (op : Op) → IsOp op → tokens_of (op_text op) ≡ op_words op }
    ensures form { (op : Op) → op_form (op_words op) ≡ Some (form_for op) }
    ensures op { (op : Op) → IsOp op → op_of_form (form_for op) ≡ Ok op }
    ensures again { (op : Op) → IsOp op → op_spelled (tokens_of (op_text op)) ≡ Some op }
{}

/// Tokens that are read as an operation are its words, so it has one spelling.
pub fn an_operation_has_one_spelling()
    ensures words { (tokens : List (List ℕ)) (form : OpForm) (op : Op) → op_form tokens ≡ Some form → op_of_form form ≡ Ok op → tokens ≡ op_words op }
    ensures range { (form : OpForm) (op : Op) → op_of_form form ≡ Ok op → IsOp op }
    ensures text { (text : List ℕ) (op : Op) → op_spelled (tokens_of text) ≡ Some op → text ≡ op_text op }
{}

/// A spelling has no line feed and at most 62 bytes. Its words are not empty and have no spaces.
pub fn a_spelling_fits_in_a_line()
    ensures feedless { (op : Op) → IsOp op → Lacks is_line_feed (op_text op) }
    ensures short { (op : Op) → IsOp op → length (op_text op) ≤ 62 }
    ensures some { (op : Op) → IsOp op → has_empty (op_words op) ≡ false }
    ensures spaceless { (op : Op) → IsOp op → All (Lacks is_space) (op_words op) }
{}

/// A copy reads its first key and writes its second one. A copy of a key to itself only writes it.
pub fn a_copy_touches_both_its_keys()
    ensures read { (from into : List ℕ) → from ≢ into → Contains (op_foot (Copy from into)) (touch from Read) }
    ensures written { (from into : List ℕ) → Contains (op_foot (Copy from into)) (touch into Write) }
    ensures one { (key : List ℕ) → op_foot (Copy key key) ≡ touch key Write ∷ [] }
{}

/// The draft of an operation is in the ranges of every draft, and is the draft of no other
/// operation. If an operation is read from a draft, the draft is that of the operation.
pub fn a_draft_is_of_one_operation()
    ensures draft { (op : Op) → IsOp op → IsDraft (draft_for op) }
    ensures again { (op : Op) → IsOp op → op_of (draft_for op) ≡ Some op }
    ensures found { (draft : DraftView) (op : Op) → op_of draft ≡ Some op → draft ≡ draft_for op }
    ensures range { (draft : DraftView) (op : Op) → op_of draft ≡ Some op → IsOp op }
    ensures apart { (a b : Op) → IsOp a → IsOp b → draft_for a ≡ draft_for b → a ≡ b }
{}

/// An operation changes only keys that it adds to or writes, and its reply depends only on the
/// values of keys that it touches.
pub fn an_operation_keeps_to_its_footprint()
    ensures changes { (pairs : Pairs) (op : Op) (key : List ℕ) → ((t : Touch) → Contains (op_foot op) t → t.access ≢ Read → t.key ≢ key) → value_at (effect pairs op) key ≡ value_at pairs key }
    ensures reads { (pairs other : Pairs) (op : Op) → ((t : Touch) → Contains (op_foot op) t → value_at pairs t.key ≡ value_at other t.key) → reply pairs op ≡ reply other op }
{}

/// A command with the draft of an operation does the operation. Every other command changes
/// nothing, and its reply is `Absent`.
pub fn a_command_does_its_operation()
    ensures done { (pairs : Pairs) (c : Command) (op : Op) → IsOp op → c.draft ≡ draft_for op → (after_command pairs c ≡ effect pairs op) × (reply_to_command pairs c ≡ reply pairs op) }
    ensures nothing { (pairs : Pairs) (c : Command) → ((op : Op) → IsOp op → c.draft ≢ draft_for op) → (after_command pairs c ≡ pairs) × (reply_to_command pairs c ≡ Absent) }
{}

/// Two different commands that do not conflict give the same pairs and the same replies in both
/// orders, whatever the store has.
pub fn commands_without_conflict_commute()
    ensures { (pairs : Pairs) (c d : Command) → same c d ≡ false → conflict c d ≡ false → Commute store_rules pairs c d }
{}
