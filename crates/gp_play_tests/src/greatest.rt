//! The greatest balance, worked out on the rules of the bank: a run reaches it only after 2^32 deposits.
ghost use Rattle.std.specs.Prelude.{◌≡◌, ◌-◌, ◌^◌, ℕ, List};
ghost use Rattle.gp_bank.specs.declared.op.BankOp.TheVariants.{Deposit, Transfer};
ghost use Rattle.gp_bank.specs.Accounts.{Accounts, balance_at};
ghost use Rattle.gp_bank.specs.Effects.{bank_effect};
ghost use Rattle.gp_bank.specs.Laws.{CanMove};

/// A deposit or a transfer that would exceed the greatest balance leads to it, and so does one that
/// just reaches it.
pub fn what_would_pass_the_greatest_balance_comes_to_it()
    ensures at_it { (accounts : Accounts) (key : List ℕ) → balance_at accounts key ≡ 2 ^ 64 - 1 → balance_at (bank_effect accounts (Deposit key 1)) key ≡ 2 ^ 64 - 1 }
    ensures reached { (accounts : Accounts) (key : List ℕ) → balance_at accounts key ≡ 2 ^ 64 - 6 → balance_at (bank_effect accounts (Deposit key 5)) key ≡ 2 ^ 64 - 1 }
    ensures passed { (accounts : Accounts) (key : List ℕ) → balance_at accounts key ≡ 2 ^ 64 - 6 → balance_at (bank_effect accounts (Deposit key 4294967295)) key ≡ 2 ^ 64 - 1 }
    ensures below { (accounts : Accounts) (key : List ℕ) → balance_at accounts key ≡ 2 ^ 64 - 6 → balance_at (bank_effect accounts (Deposit key 4)) key ≡ 2 ^ 64 - 2 }
    ensures moved { (accounts : Accounts) (from into : List ℕ) → CanMove accounts from into 7 → balance_at accounts into ≡ 2 ^ 64 - 6 → balance_at (bank_effect accounts (Transfer from into 7)) into ≡ 2 ^ 64 - 1 }
{}
