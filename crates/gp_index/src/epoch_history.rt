//! A history with an index.
ghost use Rattle.std.specs.Prelude.{◌≡◌, ◌↔◌, ℕ, ◌≤◌, ◌<◌, ◌^◌, ◌+◌, ◌++◌, ◌∷◌, [], false, true, IsTrue, IfOk, Some, length};
ghost use Rattle.gp_history.specs.History.{has, IsPrefix};
ghost use Rattle.gp_history.specs.Sequence.{history_of, no_repeat, place_in};
ghost use Rattle.gp_history.specs.Canonical.{canonical};
ghost use Rattle.gp_index.specs.Index.{IsIndex};
ghost use Rattle.gp_index.specs.Epochs.{checkpoints, epoch_start, epoch, behind_epochs};
ghost use Rattle.gp_index.specs.Ordering.{Continues, marks_in};

use crate::ordering::next_place;
use crate::parts::Parts;
use crate::windows::{is_prefix, is_same};
use gp_command::{Command, NoMemory};
use gp_history::{Hist, Unpushed};
use std::alloc::Global;
use std::marker::Model;
use std::sync::Arc;

/// A history kept as one of its linear orders, with an index of the place of each command and the
/// places where checkpoints divide the order into epochs. If it has 2^32 commands, a push of a
/// further one fails as if memory had run out.
///
/// A contract sees a history as the list of its commands, without duplicates.
#[derive(Drop, Debug)]
pub struct EpochHistory {
    alloc: Global,
    parts: Option<Arc<Parts>>,
}

impl Model for EpochHistory {
    ghost use Rattle.std.specs.Prelude.{List, [], unwrap_or};
    ghost use Rattle.std.specs.Option.{option_map};
    ghost use Rattle.std.specs.Arc.{arc_value};
    ghost use Rattle.gp_command.specs.declared.command.Command.{Command};

    ghost Value = { List Command };

    ghost view = { λ h. unwrap_or (option_map arc_value h.parts) [] };
}

impl EpochHistory {
    /// The number of epochs: one more than the number of checkpoints.
    pub fn epochs(&self) -> usize
        ensures { result ≡ checkpoints self.now + 1 }
    {
        self.ended() + 1
    }

    /// The place where epoch `i` starts: 0 for epoch 0, and otherwise the place after checkpoint
    /// `i`, counted from 1. `i` must be at most the number of checkpoints. An epoch without
    /// commands starts at the length.
    pub fn epoch_start(&self, i: usize) -> usize
        requires { i ≤ checkpoints self.now }
        ensures { result ≡ epoch_start self.now i }
    {
        match &self.parts {
            Some(parts) => parts.epoch_start(i),
            None => 0,
        }
    }

    /// The place of a command, or `None` if the history lacks it.
    pub fn find(&self, c: &Command) -> Option<usize>
        ensures { result ≡ place_in self.now c.now }
    {
        match &self.parts {
            Some(parts) => parts.find(c),
            None => None,
        }
    }

    /// Whether it is a prefix of another history. The test goes epoch by epoch, as law
    /// `a_prefix_is_one_epoch_by_epoch` permits.
    pub fn is_prefix(&self, of: &EpochHistory) -> bool
        ensures { IsTrue result ↔ IsPrefix (history_of self.now) (history_of of.now) }
    {
        let ended = self.ended();
        if of.ended() < ended || !has_epochs(self, of, ended) {
            return false;
        }
        has_rest(self, of, ended)
    }

    /// An equal history whose sequence is the canonical one. `NoMemory` if memory runs out.
    pub fn in_order(&self) -> Result<EpochHistory, NoMemory>
        ensures { IfOk result (λ ordered. ordered ≡ canonical (history_of self.now)) }
    {
        let nothing = EpochHistory {
            alloc: self.alloc,
            parts: None,
        };
        self.in_order_after(&nothing)
    }

    /// An equal history whose sequence starts with that of `taken` and goes on in canonical order:
    /// each command is the one that `next_least` returns there. `taken` must be a prefix of this
    /// history. `NoMemory` if memory runs out.
    pub fn in_order_after(&self, taken: &EpochHistory) -> Result<EpochHistory, NoMemory>
        requires { IsPrefix (history_of taken.now) (history_of self.now) }
        ensures same { IfOk result (λ ordered. history_of ordered ≡ history_of self.now) }
        ensures order { IfOk result (λ ordered. Continues (history_of self.now) taken.now ordered) }
        ensures distinct { IfOk result (λ ordered. IsTrue (no_repeat ordered)) }
    {
        let commands = self.as_slice();
        let mut ordered = taken.copy()?;
        if ordered.len() == commands.len() {
            return Ok(ordered);
        }
        let mut marks = self.marks_of(taken)?;
        while let Some(place) = next_place(commands, self.order(), &marks) {
            ordered.push(commands[place].copy()?)?;
            marks[place] = true;
        }
        Ok(ordered)
    }

    // For each command, whether it was taken.
    fn marks_of(&self, taken: &EpochHistory) -> Result<Vec<bool>, NoMemory>
        ensures { IfOk result (λ marks. marks.items ≡ marks_in self.now taken.now) }
    {
        let commands = self.as_slice();
        let mut marks = Vec::with_capacity(self.alloc, commands.len())?;
        for c in commands {
            marks.push(taken.has(c))?;
        }
        Ok(marks)
    }

    // The number of epochs that a checkpoint ends.
    fn ended(&self) -> usize
        ensures value { result ≡ checkpoints self.now }
        ensures few { result + 1 < 2 ^ 64 }
        ensures distinct { IsTrue (no_repeat self.now) }
    {
        match &self.parts {
            Some(parts) => parts.ended(),
            None => 0,
        }
    }

    // The places of its commands, in ascending order of the commands.
    #[tactic(auto, using(crate::proofs::Ascending::index_of_nothing))]
    fn order(&self) -> &[u32]
        ensures index { IsIndex self.now result.now }
        ensures distinct { IsTrue (no_repeat self.now) }
    {
        match &self.parts {
            Some(parts) => parts.order(),
            None => &[],
        }
    }

    fn as_slice(&self) -> &[Command]
        ensures value { result.now ≡ self.now }
        ensures distinct { IsTrue (no_repeat self.now) }
    {
        match &self.parts {
            Some(parts) => parts.as_slice(),
            None => &[],
        }
    }

    // A copy of its commands that is not shared.
    fn own_parts(&self) -> Result<Parts, NoMemory>
        ensures { IfOk result (λ parts. parts ≡ self.now) }
    {
        match &self.parts {
            Some(parts) => parts.copy(),
            None => Ok(Parts::new(self.alloc)),
        }
    }

    // A copy of its commands with one more, which is not shared.
    fn with(&self, c: &Command) -> Result<Arc<Parts>, NoMemory>
        requires { has (history_of self.now) c.now ≡ false }
        ensures { IfOk result (λ parts. parts.value ≡ self.now ++ c.now ∷ []) }
    {
        let mut parts = self.own_parts()?;
        parts.push(c.copy()?)?;
        Ok(Arc::new(self.alloc, parts)?)
    }
}

impl Hist for EpochHistory {
    ghost sequence = { λ h. h };

    fn empty(alloc: Global) -> Result<EpochHistory, NoMemory> {
        Ok(EpochHistory { alloc, parts: None })
    }

    fn push(&mut self, c: Command) -> Result<bool, Unpushed> {
        if let Some(shared) = &mut self.parts {
            if let Some(parts) = Arc::get_mut(shared) {
                return parts.push(c);
            }
        }
        if self.has(&c) {
            return Ok(false);
        }
        match self.with(&c) {
            Ok(parts) => {
                self.parts = Some(parts);
                Ok(true)
            }
            Err(NoMemory) => Err(Unpushed { command: c }),
        }
    }

    #[tactic(auto, using(crate::proofs::Searches::has_if_found))]
    fn has(&self, c: &Command) -> bool {
        self.find(c).is_some()
    }

    #[tactic(auto, using(gp_history::proofs::Size::size_of_sequence))]
    fn len(&self) -> usize {
        self.as_slice().len()
    }

    fn at(&self, place: usize) -> &Command {
        &self.as_slice()[place]
    }

    fn place_of(&self, c: &Command, near: usize) -> Option<usize> {
        match &self.parts {
            Some(parts) => parts.place_of(c, near),
            None => None,
        }
    }

    fn copy(&self) -> Result<EpochHistory, NoMemory> {
        let parts = match &self.parts {
            Some(parts) => Some(parts.clone()?),
            None => None,
        };
        Ok(EpochHistory {
            alloc: self.alloc,
            parts,
        })
    }

    fn clear(&mut self) {
        self.parts = None;
    }
}

// Whether the first n epochs of both are equal.
fn has_epochs(a: &EpochHistory, b: &EpochHistory, n: usize) -> bool
    requires first { n ≤ checkpoints a.now }
    requires second { n ≤ checkpoints b.now }
    ensures { IsTrue result ↔ ((i : ℕ) → i < n → history_of (epoch a.now i) ≡ history_of (epoch b.now i)) }
{
    for i in 0..n {
        if !is_same(epoch(a, i, i + 1), epoch(b, i, i + 1)) {
            return false;
        }
    }
    true
}

// The commands of an epoch, with the checkpoint at its end.
#[tactic(auto, using(crate::proofs::Starts::start_within, crate::proofs::Starts::start_rises))]
fn epoch(h: &EpochHistory, i: usize, next: usize) -> &[Command]
    requires ended { i < checkpoints h.now }
    requires next { next ≡ i + 1 }
    ensures value { result.now ≡ epoch h.now i }
    ensures distinct { IsTrue (no_repeat (epoch h.now i)) }
{
    let commands = h.as_slice();
    let start = h.epoch_start(i);
    let end = h.epoch_start(next);
    &commands[start..end]
}

// Whether the commands of the first after n checkpoints are a prefix of those of the second.
fn has_rest(a: &EpochHistory, b: &EpochHistory, n: usize) -> bool
    requires first { n ≤ checkpoints a.now }
    requires second { n ≤ checkpoints b.now }
    ensures { IsTrue result ↔ IsPrefix (history_of (behind_epochs a.now n)) (history_of (behind_epochs b.now n)) }
{
    is_prefix(behind_epochs(a, n), behind_epochs(b, n))
}

// The commands after the first n checkpoints.
#[tactic(auto, using(crate::proofs::Starts::start_within))]
fn behind_epochs(h: &EpochHistory, n: usize) -> &[Command]
    requires { n ≤ checkpoints h.now }
    ensures value { result.now ≡ behind_epochs h.now n }
    ensures distinct { IsTrue (no_repeat (behind_epochs h.now n)) }
{
    let commands = h.as_slice();
    let start = h.epoch_start(n);
    &commands[start..]
}
