//! Laws of services. Each function does nothing, and its contract is the law.
ghost use Rattle.std.specs.Prelude.{◌≡◌, ◌↔◌, ℕ, List, Some, Ok};
ghost use Rattle.gp_command.specs.Views.{DraftView};
ghost use Rattle.gp_store.specs.declared.op.Op.{Op};
ghost use Rattle.gp_store.specs.Operations.{IsOp, draft_for};
ghost use Rattle.gp_bank.specs.declared.op.BankOp.{BankOp};
ghost use Rattle.gp_bank.specs.Operations.{IsBankOp, bank_draft_for};
ghost use Rattle.gp_service.specs.Languages.{IsSpoken, IsSpelled};
ghost use Rattle.gp_service.specs.Stores.{store_language};
ghost use Rattle.gp_service.specs.Banks.{bank_language};

use crate::service::Service;

/// A draft is read from its body in the words of the key store exactly if it is the draft of an
/// operation of the key store. The same holds for accounts.
pub fn a_draft_is_spoken_if_it_is_of_an_operation()
    ensures store { (draft : DraftView) → IsSpoken store_language draft ↔ ((op : Op) × IsOp op × (draft ≡ draft_for op)) }
    ensures bank { (draft : DraftView) → IsSpoken bank_language draft ↔ ((op : BankOp) × IsBankOp op × (draft ≡ bank_draft_for op)) }
{}

/// Words that spell an operation are the tokens of the body of its draft. So the operation has one
/// spelling, and its draft is read from its body. The spelling has no line feed and at most 62
/// bytes.
pub fn an_operation_has_one_spelling<S: Service>()
    ensures spelled { (words : List (List ℕ)) (draft : DraftView) → S.profile.language words ≡ Some (Ok draft) → IsSpelled words draft }
    ensures spoken { (words : List (List ℕ)) (draft : DraftView) → S.profile.language words ≡ Some (Ok draft) → IsSpoken S.profile.language draft }
{}
