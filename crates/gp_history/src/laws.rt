//! Laws of histories. Each function does nothing, and its contract is the law.
ghost use Rattle.std.specs.Prelude.{◌≡◌, ◌&&◌, ◌||◌, ◌++◌, ◌∷◌, List, [], true, false, IsTrue, nat_lt, length, Some};
ghost use Rattle.std.specs.List.{list_any};
ghost use Rattle.gp_command.specs.declared.command.Command.{Command};
ghost use Rattle.gp_command.specs.Conflict.{same, conflict};
ghost use Rattle.gp_history.specs.History.{History, IsHistory, has, before, size, empty, push};
ghost use Rattle.gp_history.specs.Sequence.{history_of, place, no_repeat};
ghost use Rattle.gp_history.specs.Canonical.{next_least, IsNext};

/// Two histories with the same commands in the same order are equal.
pub fn histories_with_equal_parts_are_equal()
    ensures { (h k : History) → ((c : Command) → has h c ≡ has k c) → ((c d : Command) → before h c d ≡ before k c d) → h ≡ k }
{}

/// The history of a sequence has the commands of the sequence, and two that conflict have the order
/// of their first places there. If the sequence has no duplicates, the history has as many
/// commands.
pub fn a_sequence_stands_for_a_history()
    ensures history { (xs : List Command) → IsHistory (history_of xs) }
    ensures commands { (xs : List Command) (c : Command) → has (history_of xs) c ≡ list_any (same c) xs }
    ensures pairs { (xs : List Command) (c d : Command) → has (history_of xs) c ≡ true → has (history_of xs) d ≡ true → before (history_of xs) c d ≡ (conflict c d && nat_lt (place xs c) (place xs d)) }
    ensures size { (xs : List Command) → IsTrue (no_repeat xs) → size (history_of xs) ≡ length xs }
{}

/// A push adds one command, after all commands that conflict with it and before none. The other
/// commands keep their order.
pub fn a_push_adds_a_command_behind_all()
    ensures history { (h : History) (c : Command) → IsHistory h → IsHistory (push h c) }
    ensures commands { (h : History) (c d : Command) → has (push h c) d ≡ (same d c || has h d) }
    ensures old { (h : History) (c d e : Command) → IsHistory h → has h e ≡ true → before (push h c) d e ≡ before h d e }
    ensures new { (h : History) (c d : Command) → IsHistory h → has h c ≡ false → has h d ≡ true → before (push h c) d c ≡ conflict d c }
    ensures sequence { (xs : List Command) (c : Command) → history_of (xs ++ c ∷ []) ≡ push (history_of xs) c }
    ensures empty { history_of [] ≡ empty }
{}

/// `next_least` returns a command exactly if it is the next of the canonical order: the least of
/// the commands that are ready.
pub fn the_next_command_is_the_least_that_is_ready()
    ensures next { (h taken : History) (c : Command) → IsHistory h → next_least h taken ≡ Some c → IsNext h taken c }
    ensures found { (h taken : History) (c : Command) → IsHistory h → IsNext h taken c → next_least h taken ≡ Some c }
{}
