//! What a learner keeps, and what it does.
ghost use Rattle.std.specs.Prelude.{◌≡◌, ◌<◌, ◌^◌, ◌-◌, ◌∷◌, [], suc, map, IfOk, OnOk, OnErr};
ghost use Rattle.std.specs.Option.{option_to_list};
ghost use Rattle.gp_history.specs.Sequence.{history_of};
ghost use Rattle.gp_epoch.specs.Cut.{cut};
ghost use Rattle.gp_msg.specs.Messages.{message_of, Voted, Final};
ghost use Rattle.gp_learner.specs.Table as table;
ghost use Rattle.gp_learner.specs.Table.{learner_take, with_vote};
ghost use Rattle.gp_learner.specs.Epochs.{LearnerInEpoch, opening, take, hearing, passed, fall, CanTake};

use crate::part::Part;
use gp_bounds::join;
use gp_command::NoMemory;
use gp_epoch::{cut, first_checkpoint};
use gp_history::Hist;
use gp_index::History;
use gp_msg::{Msg, Outs};
use gp_round::{Config, Round};
use std::alloc::Global;
use std::marker::Model;

/// A learner: its epoch, its part, which is what it learned in that epoch, and what it learned in
/// all epochs.
///
/// The meet of the votes of all members of a quorum in a round is chosen. A learner that holds
/// these votes learns it (Lamport, *Generalized Consensus and Paxos*, 2005). A learned checkpoint
/// closes the epoch. Nothing of a learner survives a crash.
#[derive(Drop)]
pub struct Learner {
    alloc: Global,
    epoch: u32,
    part: Part,
    learned: History,
}

impl Model for Learner {
    ghost use Rattle.std.specs.Prelude.{◌≡◌, None};
    ghost use Rattle.gp_history.specs.Sequence.{history_of};
    ghost use Rattle.gp_history.specs.Bounds.{join};
    ghost use Rattle.gp_epoch.specs.Cut.{first_checkpoint};
    ghost use Rattle.gp_learner.specs.Epochs.{LearnerInEpoch};
    ghost use Rattle.gp_learner.specs.Codes.{epoch_code};

    ghost Value = { LearnerInEpoch };

    ghost coded = { epoch_code };

    ghost view = { λ l. record { epoch = l.epoch; state = l.part; learned = history_of l.learned } };

    ghost invariant = { λ l. (first_checkpoint l.part.learned ≡ None) × (join (history_of l.learned) l.part.learned ≡ history_of l.learned) };
}

impl Learner {
    /// A learner at its start: it has heard nothing, and is in epoch 0. `number` is its number
    /// among the learners, from 0. `NoMemory` if memory runs out.
    #[tactic(auto, using(gp_history::proofs::Pushing::history_of_nothing))]
    pub fn new(alloc: Global, config: &Config, number: u32) -> Result<Learner, NoMemory>
        ensures { IfOk result (λ l. l ≡ opening config.now number) }
    {
        Ok(Learner {
            alloc,
            epoch: 0,
            part: Part::new(alloc, config, number)?,
            learned: History::empty(alloc)?,
        })
    }

    /// What it learned so far, in all epochs.
    pub fn learned(&self) -> &History
        ensures { history_of result.now ≡ self.now.learned }
    {
        &self.learned
    }

    /// Takes a message, and returns what it sends for it: at most the Final of its epoch. If memory
    /// runs out, the learner stays unchanged. If the message is of the epoch of the learner, that
    /// epoch must be below 2^32 - 1.
    ///
    /// Only votes of acceptors of the configuration and Finals change the learner, and only if they
    /// are of its epoch. It holds a vote if it holds none of that acceptor in that round, or one
    /// with fewer commands. A quorum of that round, of the least size, counts if the votes of all
    /// its members are held. The join of the meets of these quorums is joined to its part.
    ///
    /// A part without a checkpoint is joined to what it learned. A part with one closes the epoch:
    /// the learner sends a Final with the cut of the part at its first checkpoint, and joins the
    /// cut to what it learned. The value of a Final that it takes is joined in the same way, and
    /// the learner sends nothing. After it sent or took a Final, it is in the next epoch, and holds
    /// no vote.
    pub fn take(&mut self, m: &Msg) -> Result<Outs, NoMemory>
        requires { CanTake self.old (message_of m.now) }
        ensures next { OnOk result (self.new ≡ (take self.old (message_of m.now)).0) }
        ensures sent { IfOk result (λ outs. map message_of outs ≡ option_to_list (take self.old (message_of m.now)).1) }
        ensures unchanged { OnErr result (self.new ≡ self.old) }
    {
        match m {
            Msg::P2b {
                epoch,
                round,
                acceptor,
                vote,
            } if *epoch == self.epoch && self.part.knows(*acceptor) => {
                self.hear(*round, *acceptor, vote)
            }
            Msg::Final { epoch, value, .. } if *epoch == self.epoch => {
                self.pass(value)?;
                Ok(Outs::new(self.alloc))
            }
            _ => Ok(Outs::new(self.alloc)),
        }
    }

    /// Crashes and restarts in epoch 0: all that it held and learned is lost.
    #[tactic(auto, using(gp_history::proofs::Pushing::history_of_nothing))]
    pub fn fall(&mut self)
        ensures { self.new ≡ fall self.old }
    {
        self.epoch = 0;
        self.part.clear();
        self.learned.clear();
    }

    /// An equal learner. `NoMemory` if memory runs out.
    pub fn copy(&self) -> Result<Learner, NoMemory>
        ensures { IfOk result (λ copy. copy ≡ self.now) }
    {
        Ok(Learner {
            alloc: self.alloc,
            epoch: self.epoch,
            part: self.part.copy()?,
            learned: self.learned.copy()?,
        })
    }

    // Enters the next epoch with the value that closes its own. If memory runs out, nothing
    // changes.
    fn pass(&mut self, value: &History) -> Result<(), NoMemory>
        requires room { self.old.epoch < 2 ^ 32 - 1 }
        ensures next { OnOk result (self.new ≡ passed self.old (history_of value.now)) }
        ensures unchanged { OnErr result (self.new ≡ self.old) }
    {
        let learned = join(self.alloc, &self.learned, value)?;
        self.enter(learned);
        Ok(())
    }

    // Closes the epoch with the cut of a part that has a checkpoint. If memory runs out, nothing
    // changes.
    fn close(&mut self, part: &History) -> Result<Outs, NoMemory>
        requires room { self.old.epoch < 2 ^ 32 - 1 }
        ensures next { OnOk result (self.new ≡ passed self.old (cut (history_of part.now))) }
        ensures sent { IfOk result (λ outs. map message_of outs ≡ Final self.old.epoch self.old.state.number (cut (history_of part.now)) ∷ []) }
        ensures unchanged { OnErr result (self.new ≡ self.old) }
    {
        let value = cut(self.alloc, part)?;
        let learned = join(self.alloc, &self.learned, &value)?;
        let mut outs = Outs::new(self.alloc);
        outs.push(Msg::Final {
            epoch: self.epoch,
            learner: self.part.number(),
            value,
        })?;
        self.enter(learned);
        Ok(outs)
    }

    // Enters the next epoch, in which it has heard nothing, with what it learned in all epochs.
    fn enter(&mut self, learned: History)
        requires { self.old.epoch < 2 ^ 32 - 1 }
        ensures { ◌≡◌ {A = LearnerInEpoch} self.new (record { epoch = suc self.old.epoch; state = table.opening self.old.state.config self.old.state.number; learned = history_of learned }) }
    {
        self.epoch += 1;
        self.part.clear();
        self.learned = learned;
    }

    // Takes a vote of its epoch. A vote that is not to be held changes nothing, since what the
    // quorums of its round voted for is learned already.
    fn hear(&mut self, round: Round, acceptor: u32, vote: &History) -> Result<Outs, NoMemory>
        requires room { self.old.epoch < 2 ^ 32 - 1 }
        requires known { acceptor < self.old.state.config.acceptors }
        ensures next { OnOk result (self.new ≡ (hearing self.old (learner_take self.old.state (Voted round acceptor (history_of vote.now)))).0) }
        ensures sent { IfOk result (λ outs. map message_of outs ≡ option_to_list (hearing self.old (learner_take self.old.state (Voted round acceptor (history_of vote.now)))).1) }
        ensures unchanged { OnErr result (self.new ≡ self.old) }
    {
        match self.part.to_hold(round, acceptor, vote)? {
            Some(vote) => self.count(round, acceptor, vote),
            None => Ok(Outs::new(self.alloc)),
        }
    }

    // Holds a vote, and learns what it adds. If memory runs out, nothing changes.
    fn count(&mut self, round: Round, acceptor: u32, vote: History) -> Result<Outs, NoMemory>
        requires room { self.old.epoch < 2 ^ 32 - 1 }
        requires known { acceptor < self.old.state.config.acceptors }
        ensures next { OnOk result (self.new ≡ (hearing self.old (with_vote self.old.state round acceptor (history_of vote))).0) }
        ensures sent { IfOk result (λ outs. map message_of outs ≡ option_to_list (hearing self.old (with_vote self.old.state round acceptor (history_of vote))).1) }
        ensures unchanged { OnErr result (self.new ≡ self.old) }
    {
        match self.part.learned_with(round, acceptor, &vote)? {
            Some(part) => self.learn(round, acceptor, vote, part),
            None => {
                self.part.hold(round, acceptor, vote, None)?;
                Ok(Outs::new(self.alloc))
            }
        }
    }

    // Holds a vote with the part that it leads to. All memory is allocated before anything changes.
    fn learn(
        &mut self,
        round: Round,
        acceptor: u32,
        vote: History,
        part: History,
    ) -> Result<Outs, NoMemory>
        requires room { self.old.epoch < 2 ^ 32 - 1 }
        requires part { history_of part ≡ (with_vote self.old.state round acceptor (history_of vote)).learned }
        ensures next { OnOk result (self.new ≡ (hearing self.old (with_vote self.old.state round acceptor (history_of vote))).0) }
        ensures sent { IfOk result (λ outs. map message_of outs ≡ option_to_list (hearing self.old (with_vote self.old.state round acceptor (history_of vote))).1) }
        ensures unchanged { OnErr result (self.new ≡ self.old) }
    {
        if first_checkpoint(&part).is_some() {
            return self.close(&part);
        }
        let learned = join(self.alloc, &self.learned, &part)?;
        self.part.hold(round, acceptor, vote, Some(part))?;
        self.learned = learned;
        Ok(Outs::new(self.alloc))
    }
}
