//! The trait of command histories.
ghost use Rattle.std.specs.Prelude.{◌≡◌, ◌↔◌, ◌<◌, ◌++◌, ◌∷◌, [], List, length, not, cond, IsTrue, IsNone, IfOk, IfErr, OnOk, OnErr, slice_get, Some};
ghost use Rattle.std.specs.Option.{option_copied};
ghost use Rattle.gp_command.specs.declared.command.Command.{Command};
ghost use Rattle.gp_history.specs.History.{has, size, IsPrefix};
ghost use Rattle.gp_history.specs.Sequence.{history_of, no_repeat, place_in};
ghost use Rattle.gp_history.specs.Canonical.{next_least};

use crate::walks;
use gp_command::{Command, NoMemory};
use std::alloc::Global;

/// Memory ran out before a command was pushed. The command is returned.
#[derive(Drop, Debug)]
pub struct Unpushed {
    pub command: Command,
}

impl From<Unpushed> for NoMemory {
    fn from(_refused: Unpushed) -> NoMemory {
        NoMemory
    }
}

/// A command history, the value that replicas agree on (Lamport, *Generalized Consensus and Paxos*,
/// 2005).
///
/// It is a finite set of commands in which every two that conflict are ordered. A value keeps one
/// linear order of the history, its sequence: the commands without duplicates, with each
/// conflicting pair in its order. Two sequences of one history differ only in the places of
/// commuting commands, so a contract speaks of the history if the sequence does not matter.
pub trait Hist: Drop {
    /// The sequence: a linear order of the history.
    ghost sequence: { Self → List Command };

    /// The empty history. `NoMemory` if memory runs out.
    fn empty(alloc: Global) -> Result<Self, NoMemory>
        ensures { IfOk result (λ h. sequence h ≡ []) };

    /// Appends a command after all commands that conflict with it, and returns `true`. If the
    /// history has the command already, nothing changes, and the result is `false`. If memory runs
    /// out, the history stays unchanged, and `Unpushed` returns the command.
    fn push(&mut self, c: Command) -> Result<bool, Unpushed>
        ensures added { IfOk result (λ added. added ≡ not (has (history_of (sequence self.old)) c)) }
        ensures pushed { OnOk result (sequence self.new ≡ cond (has (history_of (sequence self.old)) c) (sequence self.old) (sequence self.old ++ c ∷ [])) }
        ensures unchanged { OnErr result (sequence self.new ≡ sequence self.old) }
        ensures back { IfErr result (λ e. e.command ≡ c) };

    /// Whether the history has a command.
    fn has(&self, c: &Command) -> bool
        ensures { result ≡ has (history_of (sequence self.now)) c.now };

    /// The number of commands.
    fn len(&self) -> usize
        ensures items { result ≡ length (sequence self.now) }
        ensures size { result ≡ size (history_of (sequence self.now)) }
        ensures distinct { IsTrue (no_repeat (sequence self.now)) };

    /// The command at a place of the sequence, counted from 0, which must be below the number of
    /// commands.
    fn at(&self, place: usize) -> &Command
        requires { place < length (sequence self.now) }
        ensures { slice_get (sequence self.now) place ≡ Some result.now };

    /// The place of a command in the sequence, or `None` if the history lacks it. `near` is a hint
    /// for the search, and does not affect the result.
    fn place_of(&self, c: &Command, near: usize) -> Option<usize>
        ensures { result ≡ place_in (sequence self.now) c.now };

    /// An equal history with the same sequence. `NoMemory` if memory runs out.
    fn copy(&self) -> Result<Self, NoMemory>
        ensures { IfOk result (λ h. sequence h ≡ sequence self.now) };

    /// Makes it the empty history.
    fn clear(&mut self)
        ensures { sequence self.new ≡ [] };

    /// Whether it is a prefix of another history, which means that pushes extend it to that
    /// history.
    final fn is_prefix(&self, of: &Self) -> bool
        ensures { IsTrue result ↔ IsPrefix (history_of (sequence self.now)) (history_of (sequence of.now)) }
    {
        walks::is_prefix(self, of)
    }

    /// Whether the two histories are equal, even if their sequences differ.
    final fn same(&self, other: &Self) -> bool
        ensures { IsTrue result ↔ (history_of (sequence self.now) ≡ history_of (sequence other.now)) }
    {
        walks::is_same(self, other)
    }

    /// The least command of this history that is not in `taken` although all commands before it
    /// are. `None` if no command is left. If `taken` starts empty and each result is pushed onto
    /// it, the results are the canonical sequence. `taken` must be a prefix of this history.
    final fn next_least(&self, taken: &Self) -> Option<&Command>
        requires { IsPrefix (history_of (sequence taken.now)) (history_of (sequence self.now)) }
        ensures least { option_copied result ≡ next_least (history_of (sequence self.now)) (history_of (sequence taken.now)) }
        ensures none { IsNone result ↔ (history_of (sequence self.now) ≡ history_of (sequence taken.now)) }
    {
        walks::next_least(self, taken)
    }
}
