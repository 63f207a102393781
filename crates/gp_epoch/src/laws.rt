//! Laws of cuts and of joins with what was learned before. Each function does nothing, and its
//! contract is the law.
ghost use Rattle.std.specs.Prelude.{◌≡◌, ◌||◌, ◌&&◌, true, false, Some, None};
ghost use Rattle.gp_command.specs.declared.command.Command.{Command};
ghost use Rattle.gp_command.specs.Conflict.{same};
ghost use Rattle.gp_history.specs.History.{History, IsHistory, IsPrefix, has, before};
ghost use Rattle.gp_history.specs.Bounds.{IsCompatible, join};
ghost use Rattle.gp_epoch.specs.Cut.{IsFirstCheckpoint, HasCheckpoint, HasNoCheckpoint, first_checkpoint, cut};

/// The first checkpoint of a history is the one that precedes the others. A history without a first
/// checkpoint has no checkpoint.
pub fn the_first_checkpoint_precedes_the_others()
    ensures found { (h : History) (z : Command) → IsHistory h → first_checkpoint h ≡ Some z → IsFirstCheckpoint h z }
    ensures only { (h : History) (z : Command) → IsHistory h → IsFirstCheckpoint h z → first_checkpoint h ≡ Some z }
    ensures none { (h : History) → IsHistory h → first_checkpoint h ≡ None → HasNoCheckpoint h }
{}

/// The cut is a prefix that has the first checkpoint and what precedes it.
pub fn a_cut_is_a_prefix()
    ensures history { (h : History) → IsHistory h → IsHistory (cut h) }
    ensures prefix { (h : History) → IsHistory h → IsPrefix (cut h) h }
    ensures commands { (h : History) (z c : Command) → IsHistory h → first_checkpoint h ≡ Some z → has (cut h) c ≡ (has h c && (same c z || before h c z)) }
{}

/// Two compatible histories that both have a checkpoint have equal cuts.
pub fn compatible_histories_have_equal_cuts()
    ensures { (h k : History) → IsHistory h → IsHistory k → IsCompatible h k → HasCheckpoint h → HasCheckpoint k → cut h ≡ cut k }
{}

/// If only the second of two compatible histories has a checkpoint, the first is a prefix of the
/// cut of the second.
pub fn what_has_no_checkpoint_is_below_the_cut()
    ensures { (h k : History) → IsHistory h → IsHistory k → IsCompatible h k → HasNoCheckpoint h → HasCheckpoint k → IsPrefix h (cut k) }
{}

/// If one history is joined with each of two others, the two joins are compatible if the two others
/// are. If the first of the two is a prefix of the second, its join is a prefix of the other join,
/// and joining both in turn gives the join with the second alone.
pub fn joins_behind_one_history()
    ensures compatible { (b u v : History) → IsHistory b → IsHistory u → IsHistory v → IsCompatible u v → IsCompatible (join b u) (join b v) }
    ensures prefix { (b u v : History) → IsHistory b → IsHistory u → IsHistory v → IsPrefix u v → IsPrefix (join b u) (join b v) }
    ensures again { (b u v : History) → IsHistory b → IsHistory u → IsHistory v → IsPrefix u v → join (join b u) v ≡ join b v }
{}
