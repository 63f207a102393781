//! Laws of accounts. Each function is there for its contract, which is the law.
ghost use Rattle.std.specs.Prelude.{◌≡◌, ◌≢◌, ◌≤◌, ◌<◌, ◌+◌, ◌-◌, ◌^◌, ◌∷◌, min, ℕ, List, [], false, Some, Ok, Contains, length};
ghost use Rattle.std.specs.Map.{lookup};
ghost use Rattle.gp_command.specs.declared.touch.Access.TheVariants.{Add, Write};
ghost use Rattle.gp_command.specs.declared.command.Command.{Command};
ghost use Rattle.gp_command.specs.Conflict.{same, conflict};
ghost use Rattle.gp_command.specs.Spelling.{IsDraft};
ghost use Rattle.gp_command.specs.Views.{DraftView};
ghost use Rattle.gp_history.specs.History.{History};
ghost use Rattle.gp_history.specs.Canonical.{canonical};
ghost use Rattle.gp_replica.specs.declared.reply.Reply.TheVariants.{Absent};
ghost use Rattle.gp_replica.specs.Machines.{Commute, state_after, replies_to, state_of};
ghost use Rattle.gp_words.specs.Tokens.{tokens_of};
ghost use Rattle.gp_store.specs.Operations.{touch};
ghost use Rattle.gp_store.specs.Pairs.{value_at};
ghost use Rattle.gp_bank.specs.declared.op.BankOp.{BankOp};
ghost use Rattle.gp_bank.specs.declared.op.BankOp.TheVariants.{Deposit, Withdraw, Transfer};
ghost use Rattle.gp_bank.specs.Operations.{IsBankOp, bank_words, bank_text, bank_foot, bank_draft_for};
ghost use Rattle.gp_bank.specs.Forms.{BankForm, form_for, bank_form, bank_op_of_form, bank_op_spelled};
ghost use Rattle.gp_bank.specs.Drafts.{bank_op};
ghost use Rattle.gp_bank.specs.Accounts.{Accounts, balance_at};
ghost use Rattle.gp_bank.specs.Effects.{granted, bank_effect, bank_reply, after_command, reply_to_command, bank_rules};
ghost use Rattle.gp_bank.specs.Sums.{held, deposits, withdrawals};
ghost use Rattle.gp_bank.specs.Laws.{LeavesAlone, CanMove, StandsBetween, IsGrantBehind, AreOrdersOfOne};

/// The tokens of a spelling are the operation's words, and they are read back as the operation.
pub fn a_spelling_is_read_again()
    ensures tokens { (op : BankOp) → IsBankOp op → tokens_of (bank_text op) ≡ bank_words op }
    ensures form { (op : BankOp) → bank_form (bank_words op) ≡ Some (form_for op) }
    ensures op { (op : BankOp) → IsBankOp op → bank_op_of_form (form_for op) ≡ Ok op }
    ensures again { (op : BankOp) → IsBankOp op → bank_op_spelled (tokens_of (bank_text op)) ≡ Some op }
{}

/// Tokens that are read as an operation are its words, so it has one spelling, of at most 53 bytes.
pub fn an_operation_has_one_spelling()
    ensures words { (tokens : List (List ℕ)) (form : BankForm) (op : BankOp) → bank_form tokens ≡ Some form → bank_op_of_form form ≡ Ok op → tokens ≡ bank_words op }
    ensures range { (form : BankForm) (op : BankOp) → bank_op_of_form form ≡ Ok op → IsBankOp op }
    ensures text { (text : List ℕ) (op : BankOp) → bank_op_spelled (tokens_of text) ≡ Some op → text ≡ bank_text op }
    ensures short { (op : BankOp) → IsBankOp op → length (bank_text op) ≤ 53 }
{}

/// A transfer writes its first key and adds to its second one. A transfer from a key to itself only
/// writes it.
pub fn a_transfer_touches_both_its_keys()
    ensures written { (from into : List ℕ) (amount : ℕ) → Contains (bank_foot (Transfer from into amount)) (touch from Write) }
    ensures added { (from into : List ℕ) (amount : ℕ) → from ≢ into → Contains (bank_foot (Transfer from into amount)) (touch into Add) }
    ensures one { (key : List ℕ) (amount : ℕ) → bank_foot (Transfer key key amount) ≡ touch key Write ∷ [] }
{}

/// The draft of an operation is in the ranges of every draft, and is the draft of no other
/// operation. If an operation is read from a draft, the draft is that of the operation.
pub fn a_draft_is_of_one_operation()
    ensures draft { (op : BankOp) → IsBankOp op → IsDraft (bank_draft_for op) }
    ensures again { (op : BankOp) → IsBankOp op → bank_op (bank_draft_for op) ≡ Some op }
    ensures found { (draft : DraftView) (op : BankOp) → bank_op draft ≡ Some op → draft ≡ bank_draft_for op }
    ensures range { (draft : DraftView) (op : BankOp) → bank_op draft ≡ Some op → IsBankOp op }
    ensures apart { (a b : BankOp) → IsBankOp a → IsBankOp b → bank_draft_for a ≡ bank_draft_for b → a ≡ b }
{}

/// An operation changes only keys that it adds to or writes.
pub fn an_operation_keeps_to_its_footprint()
    ensures { (accounts : Accounts) (op : BankOp) (key : List ℕ) → LeavesAlone op key → value_at (bank_effect accounts op) key ≡ value_at accounts key }
{}

/// A deposit adds the amount to the balance. A withdrawal and a transfer subtract it from the
/// balance, if that is at least the amount, and a transfer adds it to another balance. No balance
/// passes 2^64 - 1. A transfer to the same account changes nothing.
pub fn balances_change_by_the_amount()
    ensures deposit { (accounts : Accounts) (key : List ℕ) (amount : ℕ) → balance_at (bank_effect accounts (Deposit key amount)) key ≡ min (balance_at accounts key + amount) (2 ^ 64 - 1) }
    ensures withdrawal { (accounts : Accounts) (key : List ℕ) (amount : ℕ) → amount ≤ balance_at accounts key → balance_at (bank_effect accounts (Withdraw key amount)) key ≡ balance_at accounts key - amount }
    ensures sent { (accounts : Accounts) (from into : List ℕ) (amount : ℕ) → CanMove accounts from into amount → balance_at (bank_effect accounts (Transfer from into amount)) from ≡ balance_at accounts from - amount }
    ensures received { (accounts : Accounts) (from into : List ℕ) (amount : ℕ) → CanMove accounts from into amount → balance_at (bank_effect accounts (Transfer from into amount)) into ≡ min (balance_at accounts into + amount) (2 ^ 64 - 1) }
    ensures to_itself { (accounts : Accounts) (key : List ℕ) (amount : ℕ) → bank_effect accounts (Transfer key key amount) ≡ accounts }
{}

/// A command with the draft of an operation does the operation. Every other command changes
/// nothing, and its reply is `Absent`.
pub fn a_command_does_its_operation()
    ensures done { (accounts : Accounts) (c : Command) (op : BankOp) → IsBankOp op → c.draft ≡ bank_draft_for op → (after_command accounts c ≡ bank_effect accounts op) × (reply_to_command accounts c ≡ bank_reply accounts op) }
    ensures nothing { (accounts : Accounts) (c : Command) → ((op : BankOp) → IsBankOp op → c.draft ≢ bank_draft_for op) → (after_command accounts c ≡ accounts) × (reply_to_command accounts c ≡ Absent) }
{}

/// Two different commands that do not conflict give the same accounts and the same replies in both
/// orders, whatever the accounts are.
pub fn commands_without_conflict_commute()
    ensures { (accounts : Accounts) (c d : Command) → same c d ≡ false → conflict c d ≡ false → Commute bank_rules accounts c d }
{}

/// A withdrawal or a transfer of a history is granted exactly if the account has the amount after
/// the commands before it in the canonical order.
pub fn a_grant_is_that_of_the_balance()
    ensures withdrawal { (h : History) (before behind : List Command) (c : Command) (key : List ℕ) (amount : ℕ) → StandsBetween h before c behind → bank_op c.draft ≡ Some (Withdraw key amount) → IsGrantBehind h before c key amount }
    ensures transfer { (h : History) (before behind : List Command) (c : Command) (from into : List ℕ) (amount : ℕ) → StandsBetween h before c behind → bank_op c.draft ≡ Some (Transfer from into amount) → IsGrantBehind h before c from amount }
{}

/// Fewer than 2^32 commands bring no balance past 2^64 - 1, so what they deposited is held or was
/// withdrawn.
pub fn what_is_deposited_is_held_or_withdrawn()
    ensures run { (cs : List Command) → length cs < 2 ^ 32 → held (state_after bank_rules cs) + withdrawals (replies_to bank_rules cs) ≡ deposits cs }
    ensures history { (h : History) → length (canonical h) < 2 ^ 32 → held (state_of bank_rules h) + withdrawals (replies_to bank_rules (canonical h)) ≡ deposits (canonical h) }
{}

/// Replicas that ran one history, each in its own order, have equal accounts and gave equal
/// replies.
pub fn replicas_of_one_history_agree()
    ensures accounts { (cs ds : List Command) → AreOrdersOfOne cs ds → state_after bank_rules cs ≡ state_after bank_rules ds }
    ensures replies { (cs ds : List Command) (c : Command) → AreOrdersOfOne cs ds → lookup (same c) (replies_to bank_rules cs) ≡ lookup (same c) (replies_to bank_rules ds) }
{}
