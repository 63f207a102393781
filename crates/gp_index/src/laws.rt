//! Laws of histories divided at checkpoints, and of the canonical order. Each function does
//! nothing, and its contract is the law.
ghost use Rattle.std.specs.Prelude.{◌≡◌, ◌↔◌, ◌≤◌, ℕ, List, [], length, IsTrue};
ghost use Rattle.gp_command.specs.declared.command.Command.{Command};
ghost use Rattle.gp_history.specs.History.{History, IsHistory, IsPrefix};
ghost use Rattle.gp_history.specs.Sequence.{history_of, no_repeat};
ghost use Rattle.gp_history.specs.Canonical.{canonical};
ghost use Rattle.gp_index.specs.Epochs.{IsCutPrefix, epoch_start};
ghost use Rattle.gp_index.specs.Ordering.{Continues};

/// A history is a prefix of another exactly if the other has at least as many checkpoints, each
/// epoch that a checkpoint of the first ends is the same in both, and the commands of the first
/// after its last checkpoint are a prefix of those of the other after as many checkpoints.
pub fn a_prefix_is_one_epoch_by_epoch()
    ensures sequences { (xs ys : List Command) → IsTrue (no_repeat xs) → IsTrue (no_repeat ys) → IsPrefix (history_of xs) (history_of ys) ↔ IsCutPrefix xs ys }
    ensures histories { (h k : History) → IsHistory h → IsHistory k → IsPrefix h k ↔ IsCutPrefix (canonical h) (canonical k) }
{}

/// No epoch starts after the end.
pub fn an_epoch_starts_within()
    ensures { (xs : List Command) (i : ℕ) → epoch_start xs i ≤ length xs }
{}

/// A sequence that has all commands of a history, each as the least that is ready then, is the
/// canonical one.
pub fn a_sequence_from_nothing_is_canonical()
    ensures { (h : History) (xs : List Command) → IsHistory h → IsTrue (no_repeat xs) → history_of xs ≡ h → Continues h [] xs → xs ≡ canonical h }
{}
