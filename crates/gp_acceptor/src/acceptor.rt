//! What an acceptor keeps, and what it does.
ghost use Rattle.std.specs.Prelude.{◌≡◌, ◌<◌, ◌^◌, ◌-◌, IfOk, OnOk, OnErr, map};
ghost use Rattle.std.specs.Option.{option_to_list};
ghost use Rattle.gp_msg.specs.Messages.{message_of, part_of, closed_by};
ghost use Rattle.gp_acceptor.specs.Epochs.{opening, durable, take, fall, entered};

use crate::part::Part;
use gp_command::NoMemory;
use gp_msg::{Durable, Msg, Outs};
use gp_round::Config;
use std::alloc::Global;
use std::marker::Model;

/// An acceptor: its epoch and its state there. The epoch, its round, the round of its last vote and
/// that vote survive a crash.
#[derive(Drop)]
pub struct Acceptor {
    alloc: Global,
    epoch: u32,
    part: Part,
}

impl Model for Acceptor {
    ghost use Rattle.gp_acceptor.specs.Epochs.{AcceptorInEpoch};
    ghost use Rattle.gp_acceptor.specs.Codes.{epoch_code};

    ghost Value = { AcceptorInEpoch };

    ghost coded = { epoch_code };

    ghost view = { λ a. record { epoch = a.epoch; state = a.part } };
}

impl Acceptor {
    /// An acceptor at its start: it is in epoch 0. `number` is its number among the acceptors, from
    /// 0. `NoMemory` if memory runs out.
    pub fn new(alloc: Global, config: &Config, number: u32) -> Result<Acceptor, NoMemory>
        ensures { IfOk result (λ a. a ≡ opening config.now number) }
    {
        Ok(Acceptor {
            alloc,
            epoch: 0,
            part: Part::new(alloc, config, number)?,
        })
    }

    /// The part that survives a crash. `NoMemory` if memory runs out.
    pub fn durable(&self) -> Result<Durable, NoMemory>
        ensures { IfOk result (λ d. part_of d ≡ durable self.now) }
    {
        self.part.durable(self.epoch)
    }

    /// Crashes and restarts with this durable part. The held values are lost. If the durable part
    /// is that of a coordinator, only the epoch is taken from it, and the state there stays.
    pub fn fall(&mut self, durable: Durable)
        ensures { self.new ≡ fall self.old (part_of durable) }
    {
        match durable {
            Durable::Acceptor {
                epoch,
                round,
                voted,
                vote,
            } => {
                self.epoch = epoch;
                self.part.fall(round, voted, vote);
            }
            Durable::Coordinator { epoch, .. } => {
                self.epoch = epoch;
            }
        }
    }

    /// Takes a message, and returns what it sends for it: at most one message. If memory runs out,
    /// nothing changes. The epoch of a Final must be below 2^32 - 1.
    ///
    /// In its epoch the acceptor answers a P1a of a greater round with its last vote. It holds the
    /// values that coordinators send for its round or a greater one, and votes if it holds those of
    /// a quorum of coordinators. In a fast round only its first vote comes from them. After that it
    /// votes for each proposed command that its vote lacks. After a Final that is not of an earlier
    /// epoch it is in the epoch after that one, in round zero: its votes are forgotten, and it
    /// holds no value.
    pub fn take(&mut self, m: &Msg) -> Result<Outs, NoMemory>
        requires { closed_by (message_of m.now) < 2 ^ 32 - 1 }
        ensures next { OnOk result (self.new ≡ (take self.old (message_of m.now)).0) }
        ensures sent { IfOk result (λ outs. map message_of outs ≡ option_to_list (take self.old (message_of m.now)).1) }
        ensures unchanged { OnErr result (self.new ≡ self.old) }
    {
        match m {
            Msg::Propose { command } => self.part.propose(self.epoch, command),
            Msg::P1a { epoch, round } if *epoch == self.epoch => {
                self.part.answer(self.epoch, *round)
            }
            Msg::P2a {
                epoch,
                round,
                coordinator,
                value,
            } if *epoch == self.epoch => {
                self.part.receive(self.epoch, *round, *coordinator, value)
            }
            Msg::Final { epoch, .. } if *epoch >= self.epoch => {
                self.epoch = *epoch + 1;
                self.part.clear();
                Ok(Outs::new(self.alloc))
            }
            _ => Ok(Outs::new(self.alloc)),
        }
    }

    /// An equal acceptor. `NoMemory` if memory runs out.
    pub fn copy(&self) -> Result<Acceptor, NoMemory>
        ensures { IfOk result (λ a. a ≡ self.now) }
    {
        Ok(Acceptor {
            alloc: self.alloc,
            epoch: self.epoch,
            part: self.part.copy()?,
        })
    }
}
