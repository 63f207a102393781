//! The part of a history that its copies share.
ghost use Rattle.std.specs.Prelude.{◌≡◌, ◌≤◌, ◌<◌, ◌^◌, ◌+◌, ◌++◌, ◌∷◌, [], false, not, cond, IsTrue, IfOk, IfErr, OnOk, OnErr};
ghost use Rattle.std.specs.List.{list_any};
ghost use Rattle.gp_command.specs.Conflict.{same};
ghost use Rattle.gp_history.specs.History.{has};
ghost use Rattle.gp_history.specs.Sequence.{history_of, no_repeat, place_in};
ghost use Rattle.gp_index.specs.Epochs.{checkpoints, epoch_start};
ghost use Rattle.gp_index.specs.Index.{IsIndex, IsParts, IsGap};

use crate::index::search;
use gp_command::{Command, NoMemory};
use gp_history::{Unpushed, stands_at};
use std::alloc::Global;
use std::marker::Model;

/// A sequence of commands without duplicates, with its index and the places where its epochs start.
///
/// A contract sees it as the list of commands.
#[derive(Drop, Debug)]
pub struct Parts {
    commands: Vec<Command>,
    order: Vec<u32>,
    starts: Vec<usize>,
}

impl Model for Parts {
    ghost use Rattle.std.specs.Prelude.{List};
    ghost use Rattle.gp_command.specs.declared.command.Command.{Command};
    ghost use Rattle.gp_index.specs.Index.{IsParts};

    ghost Value = { List Command };

    ghost view = { λ p. p.commands.items };

    ghost invariant = { λ p. IsParts p.commands.items p.order.items p.starts.items };
}

impl Parts {
    /// No commands.
    pub fn new(alloc: Global) -> Parts
        ensures { result ≡ [] }
    {
        Parts {
            commands: Vec::new(alloc),
            order: Vec::new(alloc),
            starts: Vec::new(alloc),
        }
    }

    /// The commands.
    pub fn as_slice(&self) -> &[Command]
        ensures value { result.now ≡ self.now }
        ensures distinct { IsTrue (no_repeat self.now) }
    {
        &self.commands
    }

    /// The places of the commands, in ascending order of the commands.
    pub fn order(&self) -> &[u32]
        ensures index { IsIndex self.now result.now }
        ensures distinct { IsTrue (no_repeat self.now) }
    {
        &self.order
    }

    /// The place of a command, or `None` if it is not there.
    pub fn find(&self, c: &Command) -> Option<usize>
        ensures { result ≡ place_in self.now c.now }
    {
        match search(c, &self.commands, &self.order) {
            Ok(place) => Some(place),
            Err(_) => None,
        }
    }

    /// The place of a command, or `None` if it is not there. `near` is a hint for the search, and
    /// does not affect the result.
    pub fn place_of(&self, c: &Command, near: usize) -> Option<usize>
        ensures { result ≡ place_in self.now c.now }
    {
        if stands_at(c, &self.commands, near) {
            return Some(near);
        }
        if near < self.commands.len() && stands_at(c, &self.commands, near + 1) {
            return Some(near + 1);
        }
        self.find(c)
    }

    /// The number of epochs that a checkpoint ends.
    pub fn ended(&self) -> usize
        ensures value { result ≡ checkpoints self.now }
        ensures few { result + 1 < 2 ^ 64 }
        ensures distinct { IsTrue (no_repeat self.now) }
    {
        self.starts.len()
    }

    /// The place where epoch `i` starts. `i` must be at most the number of checkpoints.
    pub fn epoch_start(&self, i: usize) -> usize
        requires { i ≤ checkpoints self.now }
        ensures { result ≡ epoch_start self.now i }
    {
        if i == 0 { 0 } else { self.starts[i - 1] }
    }

    /// Equal parts. `NoMemory` if memory runs out.
    pub fn copy(&self) -> Result<Parts, NoMemory>
        ensures { IfOk result (λ p. p ≡ self.now) }
    {
        let alloc = *self.commands.allocator();
        let room = self.commands.len() + 1;
        let mut commands = Vec::with_capacity(alloc, room)?;
        for c in &self.commands {
            commands.push(c.copy()?)?;
        }
        let mut order = Vec::with_capacity(alloc, room)?;
        order.extend_from_slice(&self.order)?;
        Ok(Parts {
            commands,
            order,
            starts: Vec::from_slice(alloc, &self.starts)?,
        })
    }

    /// Appends a command and returns `true`, or returns `false` if it is there already. If memory
    /// runs out or there are 2^32 commands, nothing changes, and `Unpushed` returns the command.
    pub fn push(&mut self, c: Command) -> Result<bool, Unpushed>
        ensures added { IfOk result (λ added. added ≡ not (has (history_of self.old) c)) }
        ensures pushed { OnOk result (self.new ≡ cond (has (history_of self.old) c) self.old (self.old ++ c ∷ [])) }
        ensures unchanged { OnErr result (self.new ≡ self.old) }
        ensures back { IfErr result (λ e. e.command ≡ c) }
    {
        match search(&c, &self.commands, &self.order) {
            Ok(_) => Ok(false),
            Err(at) => {
                append(&mut self.commands, &mut self.order, &mut self.starts, at, c)?;
                Ok(true)
            }
        }
    }
}

// Appends a command whose entry belongs at place `at` of the index. If memory runs out, or 32 bits
// are too few for its place, nothing changes.
fn append(
    commands: &mut Vec<Command>,
    order: &mut Vec<u32>,
    starts: &mut Vec<usize>,
    at: usize,
    c: Command,
) -> Result<(), Unpushed>
    requires parts { IsParts commands.old.items order.old.items starts.old.items }
    requires gap { IsGap commands.old.items order.old.items c at }
    requires absent { list_any (same c) commands.old.items ≡ false }
    ensures appended { OnOk result (commands.new.items ≡ commands.old.items ++ c ∷ []) }
    ensures parts { IsParts commands.new.items order.new.items starts.new.items }
    ensures unchanged { OnErr result (commands.new.items ≡ commands.old.items) }
    ensures back { IfErr result (λ e. e.command ≡ c) }
{
    let place = commands.len();
    if place > u32::MAX as usize {
        return Err(Unpushed { command: c });
    }
    if order.reserve(1).is_err() || starts.reserve(1).is_err() {
        return Err(Unpushed { command: c });
    }
    let cuts = c.draft().is_checkpoint();
    if let Err(refused) = commands.push(c) {
        return Err(Unpushed {
            command: refused.value,
        });
    }
    // both have room, so neither call fails
    let _room = order.insert(at, place as u32);
    if cuts {
        let _room = starts.push(place + 1);
    }
    Ok(())
}
