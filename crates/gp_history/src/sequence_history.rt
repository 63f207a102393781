//! A history kept as one list.
use crate::hist::{Hist, Unpushed};
use crate::sequence::{is_among, place_of};
use gp_command::{Command, NoMemory};
use std::alloc::Global;
use std::marker::Model;

/// A history, kept as its sequence.
///
/// A contract sees it as the list of its commands, without duplicates.
#[derive(Drop)]
pub struct SeqHistory {
    commands: Vec<Command>,
}

impl Model for SeqHistory {
    ghost use Rattle.std.specs.Prelude.{List, IsTrue};
    ghost use Rattle.gp_command.specs.declared.command.Command.{Command};
    ghost use Rattle.gp_history.specs.Sequence.{no_repeat};

    ghost Value = { List Command };

    ghost view = { λ h. h.commands.items };

    ghost invariant = { λ h. IsTrue (no_repeat h.commands.items) };
}

impl Hist for SeqHistory {
    ghost sequence = { λ h. h };

    fn empty(alloc: Global) -> Result<SeqHistory, NoMemory> {
        Ok(SeqHistory {
            commands: Vec::new(alloc),
        })
    }

    #[tactic(auto, using(crate::proofs::Sequences::may_push))]
    fn push(&mut self, c: Command) -> Result<bool, Unpushed> {
        if self.has(&c) {
            return Ok(false);
        }
        match self.commands.push(c) {
            Ok(()) => Ok(true),
            Err(refused) => Err(Unpushed {
                command: refused.value,
            }),
        }
    }

    #[tactic(auto, using(crate::proofs::Sets::has_history_of))]
    fn has(&self, c: &Command) -> bool {
        is_among(c, &self.commands)
    }

    #[tactic(auto, using(crate::proofs::Size::size_of_sequence))]
    fn len(&self) -> usize {
        self.commands.len()
    }

    fn at(&self, place: usize) -> &Command {
        &self.commands[place]
    }

    fn place_of(&self, c: &Command, near: usize) -> Option<usize> {
        place_of(c, &self.commands, near)
    }

    fn copy(&self) -> Result<SeqHistory, NoMemory> {
        let mut commands = Vec::with_capacity(*self.commands.allocator(), self.commands.len())?;
        for c in &self.commands {
            commands.push(c.copy()?)?;
        }
        Ok(SeqHistory { commands })
    }

    fn clear(&mut self) {
        self.commands.clear();
    }
}
