//! Laws of lists that were closed. Each function does nothing, and its contract is the law.
ghost use Rattle.std.specs.Prelude.{◌≡◌, ℕ, List, length};
ghost use Rattle.std.specs.List.{Contains};
ghost use Rattle.gp_wire.specs.declared.view.Post.{Post};
ghost use Rattle.gp_wire.specs.Rule.{items};
ghost use Rattle.gp_wire.specs.Known.{PassState, records};
ghost use Rattle.gp_phase.specs.Quiet.{posted_all, IsQuietAt, AreAll, SawAll};

/// The closed list has as many records as all nodes posted.
pub fn a_closed_list_has_what_all_posted()
    ensures { (log : List Post) (ps : List PassState) → AreAll log ps → length (items log) ≡ posted_all ps }
{}

/// A node that had seen as many records as all nodes posted has seen the closed list, and it took
/// each message of the list that it reads, exactly once.
pub fn what_all_saw_is_quiet()
    ensures list { (log : List Post) (ps : List PassState) (p : PassState) (cursor : ℕ) → AreAll log ps → Contains ps p → SawAll ps p cursor → records p ≡ items log }
    ensures quiet { (log : List Post) (ps : List PassState) (p : PassState) (cursor : ℕ) → AreAll log ps → Contains ps p → SawAll ps p cursor → IsQuietAt p.node (items log) }
{}
