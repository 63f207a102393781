//! What a coordinator keeps, and what it does with each message.
ghost use Rattle.std.specs.Prelude.{◌≡◌, ◌<◌, ◌^◌, ◌-◌, IfOk, OnOk, OnErr, true, map};
ghost use Rattle.std.specs.Option.{option_to_list};
ghost use Rattle.gp_history.specs.Sequence.{history_of};
ghost use Rattle.gp_round.specs.Configs.{is_owner};
ghost use Rattle.gp_msg.specs.Messages.{message_of, part_of, closed_by};
ghost use Rattle.gp_coordinator.specs.Epochs.{opening, begin, take, fall, durable, settled};

use crate::part::Part;
use gp_command::NoMemory;
use gp_epoch::Done;
use gp_index::History;
use gp_msg::{Durable, Msg, Outs};
use gp_round::{Config, Round};
use std::alloc::Global;
use std::marker::Model;

/// A coordinator (Lamport, *Generalized Consensus and Paxos*, 2005; Camargos, Schmidt, Pedone,
/// *Multicoordinated Paxos*, 2007): its epoch, its state there, and the commands that are done,
/// which are those in the Finals that it took since its last crash. The epoch and the round survive
/// a crash.
#[derive(Drop)]
pub struct Coordinator {
    alloc: Global,
    epoch: u32,
    part: Part,
    done: Done,
}

impl Model for Coordinator {
    ghost use Rattle.gp_coordinator.specs.Epochs.{CoordinatorInEpoch};
    ghost use Rattle.gp_coordinator.specs.Codes.{epoch_code};

    ghost Value = { CoordinatorInEpoch };

    ghost coded = { epoch_code };

    ghost view = { λ c. record { epoch = c.epoch; state = c.part; done = c.done } };
}

impl Coordinator {
    /// A coordinator at its start: it is in epoch 0. `number` is its number among the coordinators,
    /// from 0. `NoMemory` if memory runs out.
    pub fn new(alloc: Global, config: &Config, number: u32) -> Result<Coordinator, NoMemory>
        ensures { IfOk result (λ c. c ≡ opening config.now number) }
    {
        Ok(Coordinator {
            alloc,
            epoch: 0,
            part: Part::new(alloc, config, number)?,
            done: Done::new(alloc)?,
        })
    }

    /// Its epoch.
    pub fn epoch(&self) -> u32
        ensures { result ≡ self.now.epoch }
    {
        self.epoch
    }

    /// Its round.
    pub fn round(&self) -> Round
        ensures { result ≡ self.now.state.round }
    {
        self.part.round()
    }

    /// The part that survives a crash.
    pub fn durable(&self) -> Durable
        ensures { part_of result ≡ durable self.now }
    {
        Durable::Coordinator {
            epoch: self.epoch,
            round: self.part.round(),
        }
    }

    /// Begins a round of its epoch that it owns, and returns the message that asks the acceptors to
    /// join. If the round is not greater than its own, nothing changes, and there is no message. If
    /// memory runs out, nothing changes.
    pub fn begin(&mut self, round: Round) -> Result<Outs, NoMemory>
        requires { is_owner self.old.state.config.coordinators self.old.state.number round ≡ true }
        ensures next { OnOk result (self.new ≡ (begin self.old round).0) }
        ensures sent { IfOk result (λ outs. map message_of outs ≡ option_to_list (begin self.old round).1) }
        ensures unchanged { OnErr result (self.new ≡ self.old) }
    {
        self.part.begin(self.epoch, round)
    }

    /// Takes a message, and returns what it sends for it: at most one message, which carries a
    /// value. If memory runs out, nothing changes. The epoch of a Final must be below 2^32 - 1.
    ///
    /// In its epoch the coordinator sends a value when a quorum of acceptors has answered in phase
    /// 1. After that, in a round that is not fast, it sends a value for each proposed command that
    /// its value lacks. It ignores a proposal of a command that is done. It enters a multi round
    /// that another coordinator began, if that is greater than its own. After a Final the commands
    /// of its value are done, and no longer pending. If the Final is not of an earlier epoch, the
    /// coordinator enters the epoch after it, in round zero, and keeps the other pending commands.
    pub fn take(&mut self, m: &Msg) -> Result<Outs, NoMemory>
        requires { closed_by (message_of m.now) < 2 ^ 32 - 1 }
        ensures next { OnOk result (self.new ≡ (take self.old (message_of m.now)).0) }
        ensures sent { IfOk result (λ outs. map message_of outs ≡ option_to_list (take self.old (message_of m.now)).1) }
        ensures unchanged { OnErr result (self.new ≡ self.old) }
    {
        match m {
            Msg::Propose { command } if !self.done.has(command) => {
                self.part.propose(self.epoch, command)
            }
            Msg::P1a { epoch, round } if *epoch == self.epoch => {
                self.part.follow(*round);
                Ok(Outs::new(self.alloc))
            }
            Msg::P1b {
                epoch,
                round,
                acceptor,
                voted,
                vote,
            } if *epoch == self.epoch => {
                self.part
                    .collect(self.epoch, *round, *acceptor, *voted, vote)
            }
            Msg::Final { epoch, value, .. } => {
                self.settle(value)?;
                if *epoch >= self.epoch {
                    self.epoch = *epoch + 1;
                    self.part.leave();
                }
                Ok(Outs::new(self.alloc))
            }
            _ => Ok(Outs::new(self.alloc)),
        }
    }

    /// Crashes and restarts with the epoch and the round of this durable part. The rest of its
    /// state is lost, and no command counts as done. If the durable part is that of an acceptor,
    /// only the epoch is taken from it: the state there stays, and no command counts as done.
    pub fn fall(&mut self, durable: Durable)
        ensures { self.new ≡ fall self.old (part_of durable) }
    {
        match durable {
            Durable::Coordinator { epoch, round } => {
                self.epoch = epoch;
                self.part.fall(round);
            }
            Durable::Acceptor { epoch, .. } => {
                self.epoch = epoch;
            }
        }
        self.done.clear();
    }

    /// An equal coordinator. `NoMemory` if memory runs out.
    pub fn copy(&self) -> Result<Coordinator, NoMemory>
        ensures { IfOk result (λ copy. copy ≡ self.now) }
    {
        Ok(Coordinator {
            alloc: self.alloc,
            epoch: self.epoch,
            part: self.part.copy()?,
            done: self.done.copy()?,
        })
    }

    // Counts the commands of a closed epoch as done, and no longer as pending. If memory runs out,
    // nothing changes.
    fn settle(&mut self, value: &History) -> Result<(), NoMemory>
        ensures next { OnOk result (self.new ≡ settled self.old (history_of value.now)) }
        ensures unchanged { OnErr result (self.new ≡ self.old) }
    {
        let rest = self.part.rest(value)?;
        self.done.add(value)?;
        self.part.set_pending(rest);
        Ok(())
    }
}
