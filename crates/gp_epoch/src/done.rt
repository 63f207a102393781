//! The commands of closed epochs.
ghost use Rattle.std.specs.Prelude.{◌≡◌, IfOk, OnOk, OnErr};
ghost use Rattle.std.specs.FinSet as set;
ghost use Rattle.gp_history.specs.Sequence.{history_of};

use gp_bounds::join;
use gp_command::{Command, NoMemory};
use gp_history::Hist;
use gp_index::History;
use std::alloc::Global;
use std::marker::Model;

/// The commands in the values of closed epochs. A contract sees them as a set.
#[derive(Drop, Debug)]
pub struct Done {
    alloc: Global,
    commands: History,
}

impl Model for Done {
    ghost use Rattle.std.specs.FinSet as set;
    ghost use Rattle.gp_command.specs.Order.{command_cmp};
    ghost use Rattle.gp_history.specs.Sequence.{history_of};
    ghost use Rattle.gp_epoch.specs.Codes.{commands_code};

    ghost Value = { set.FinSet command_cmp };

    ghost coded = { commands_code };

    ghost view = { λ d. (history_of d.commands).commands };
}

impl Done {
    /// No commands. `NoMemory` if memory runs out.
    #[tactic(auto, using(crate::proofs::Sets::nothing_done))]
    pub fn new(alloc: Global) -> Result<Done, NoMemory>
        ensures { IfOk result (λ d. d ≡ set.empty) }
    {
        Ok(Done {
            alloc,
            commands: History::empty(alloc)?,
        })
    }

    /// Adds the commands of a value. `NoMemory` if memory runs out, and then nothing is added.
    #[tactic(auto, using(crate::proofs::Sets::joined_commands))]
    pub fn add(&mut self, value: &History) -> Result<(), NoMemory>
        ensures added { OnOk result (self.new ≡ set.union self.old (history_of value.now).commands) }
        ensures unchanged { OnErr result (self.new ≡ self.old) }
    {
        let joined = join(self.alloc, &self.commands, value)?;
        self.commands = joined;
        Ok(())
    }

    /// Forgets all commands.
    #[tactic(auto, using(crate::proofs::Sets::nothing_done))]
    pub fn clear(&mut self)
        ensures { self.new ≡ set.empty }
    {
        self.commands.clear();
    }

    /// An equal set. `NoMemory` if memory runs out.
    pub fn copy(&self) -> Result<Done, NoMemory>
        ensures { IfOk result (λ copy. copy ≡ self.now) }
    {
        Ok(Done {
            alloc: self.alloc,
            commands: self.commands.copy()?,
        })
    }

    /// Whether a command is in the set.
    #[tactic(auto, using(crate::proofs::Sets::has_is_contains))]
    pub fn has(&self, c: &Command) -> bool
        ensures { result ≡ set.contains self.now c.now }
    {
        self.commands.has(c)
    }
}
