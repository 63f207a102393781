//! The state of an acceptor in its epoch, and what it does there.
ghost use Rattle.std.specs.Prelude.{◌≡◌, [], ◌∷◌, ◌<◌, IfOk, IsTrue, OnOk, OnErr, map, not, cond, ◌&&◌, false};
ghost use Rattle.std.specs.Option.{option_map, option_to_list};
ghost use Rattle.gp_history.specs.History.{has, push};
ghost use Rattle.gp_history.specs.Sequence.{history_of};
ghost use Rattle.gp_round.specs.Rounds.{earlier, same_round, is_fast};
ghost use Rattle.gp_msg.specs.Messages.{message_of, part_of, maybe_stamped, EpochPart, Acceptors, Asked, Proposed, Sent, Voted, InEpoch};
ghost use Rattle.gp_acceptor.specs.State.{opening, histories};
ghost use Rattle.gp_acceptor.specs.Table.{acceptor_take, acceptor_fall, durable, raised, with_value, with_vote};
ghost use Rattle.gp_acceptor.specs.Revotes.{IsAgreed, IsPlan, settled, vote_sent};

use crate::held::{clear, copy_value, value_at};
use crate::voting::{revote, sent_vote, told_vote};
use gp_command::{Command, NoMemory};
use gp_history::Hist;
use gp_index::History;
use gp_msg::{Durable, Msg, Outs};
use gp_round::{Config, Round};
use gp_safe::newer;
use std::alloc::Global;
use std::marker::Model;

/// The state of an acceptor in its epoch. Its round, the round of its last vote and that vote
/// survive a crash. The values that are held of coordinators do not.
#[derive(Drop)]
pub struct Part {
    alloc: Global,
    config: Config,
    number: u32,
    round: Round,
    voted: Round,
    vote: History,
    held: Vec<Option<History>>,
}

impl Model for Part {
    ghost use Rattle.std.specs.Prelude.{◌≡◌, length};
    ghost use Rattle.gp_history.specs.Sequence.{history_of};
    ghost use Rattle.gp_acceptor.specs.State.{AcceptorState, histories};
    ghost use Rattle.gp_acceptor.specs.Codes.{state_code};
    ghost use Rattle.gp_acceptor.specs.Table.{value_at};
    ghost use Rattle.gp_acceptor.specs.Revotes.{HasAgreed};

    ghost Value = { AcceptorState };

    ghost coded = { state_code };

    ghost view = { λ a. record { config = a.config; number = a.number; round = a.round; voted = a.voted; vote = history_of a.vote; held = histories a.held.items } };

    ghost invariant = { λ a. (length a.held.items ≡ a.config.coordinators) × HasAgreed a.config.coordinators a.voted a.round (history_of a.vote) (value_at (histories a.held.items)) };
}

impl Part {
    /// The state at the start: round zero, with the empty history as its vote. `NoMemory` if memory
    /// runs out.
    #[tactic(auto, using(crate::proofs::Holding::all_gone, gp_history::proofs::Pushing::history_of_nothing, crate::proofs::Agreeing::agreed_of_nobody))]
    pub fn new(alloc: Global, config: &Config, number: u32) -> Result<Part, NoMemory>
        ensures { IfOk result (λ a. a ≡ opening config.now number) }
    {
        let mut held = Vec::new(alloc);
        for _ in 0..config.coordinators() {
            held.push(None)?;
        }
        Ok(Part {
            alloc,
            config: *config,
            number,
            round: Round::zero(),
            voted: Round::zero(),
            vote: History::empty(alloc)?,
            held,
        })
    }

    /// Returns to the state at the start.
    #[tactic(auto, using(crate::proofs::Agreeing::agreed_of_nobody))]
    pub fn clear(&mut self)
        ensures { self.new ≡ opening self.old.config self.old.number }
    {
        self.round = Round::zero();
        self.voted = Round::zero();
        self.vote.clear();
        clear(&mut self.held);
    }

    /// The part that survives a crash, with this epoch. `NoMemory` if memory runs out.
    pub fn durable(&self, epoch: u32) -> Result<Durable, NoMemory>
        ensures { IfOk result (λ d. ◌≡◌ {A = EpochPart} (part_of d) (record { epoch = epoch; part = durable self.now })) }
    {
        Ok(Durable::Acceptor {
            epoch,
            round: self.round,
            voted: self.voted,
            vote: self.vote.copy()?,
        })
    }

    /// Crashes and restarts with this round, and with this last vote and its round. The held values
    /// are lost.
    #[tactic(auto, using(crate::proofs::Agreeing::agreed_of_nobody))]
    pub fn fall(&mut self, round: Round, voted: Round, vote: History)
        ensures { self.new ≡ acceptor_fall self.old (Acceptors round voted (history_of vote)) }
    {
        self.round = round;
        self.voted = voted;
        self.vote = vote;
        clear(&mut self.held);
    }

    /// An equal part. `NoMemory` if memory runs out.
    pub fn copy(&self) -> Result<Part, NoMemory>
        ensures { IfOk result (λ a. a ≡ self.now) }
    {
        let mut held = Vec::new(self.alloc);
        for value in &self.held {
            held.push(copy_value(value)?)?;
        }
        Ok(Part {
            alloc: self.alloc,
            config: self.config,
            number: self.number,
            round: self.round,
            voted: self.voted,
            vote: self.vote.copy()?,
            held,
        })
    }

    // Enters a greater round, in which no value is held yet.
    #[tactic(auto, using(crate::proofs::Agreeing::agreed_of_nobody))]
    fn raise(&mut self, round: Round)
        ensures { self.new ≡ raised self.old round }
    {
        if self.round < round {
            self.round = round;
            clear(&mut self.held);
        }
    }

    /// Enters a round that is greater than its own, and returns the message that answers with its
    /// last vote. For any other round nothing changes, and there is no message. If memory runs out,
    /// nothing changes.
    pub fn answer(&mut self, epoch: u32, asked: Round) -> Result<Outs, NoMemory>
        ensures next { OnOk result (self.new ≡ (acceptor_take self.old (Asked asked)).0) }
        ensures sent { IfOk result (λ outs. map message_of outs ≡ option_to_list (maybe_stamped epoch (acceptor_take self.old (Asked asked)).1)) }
        ensures unchanged { OnErr result (self.new ≡ self.old) }
    {
        let mut outs = Outs::new(self.alloc);
        if self.round < asked {
            outs.push(Msg::P1b {
                epoch,
                round: asked,
                acceptor: self.number,
                voted: self.voted,
                vote: self.vote.copy()?,
            })?;
            self.raise(asked);
        }
        Ok(outs)
    }

    // Whether it votes for a proposed command.
    fn accepts(&self, c: &Command) -> bool
        ensures { result ≡ (same_round self.now.voted self.now.round && is_fast self.now.round.mode && not (has self.now.vote c.now)) }
    {
        self.voted == self.round && self.round.mode.is_fast() && !self.vote.has(c)
    }

    // Votes for one more command.
    fn extend(&mut self, epoch: u32, c: &Command) -> Result<Outs, NoMemory>
        requires { IsTrue (is_fast self.old.round.mode) }
        ensures next { OnOk result (self.new ≡ record self.old { vote = push self.old.vote c.now }) }
        ensures sent { IfOk result (λ outs. map message_of outs ≡ InEpoch epoch (Voted self.old.round self.old.number (push self.old.vote c.now)) ∷ []) }
        ensures unchanged { OnErr result (self.new ≡ self.old) }
    {
        let vote = self.vote_with(c)?;
        let outs = sent_vote(self.alloc, epoch, self.number, self.round, &vote)?;
        self.vote = vote;
        Ok(outs)
    }

    // Its vote with one more command. `NoMemory` if memory runs out.
    #[tactic(auto, using(gp_safe::proofs::Pushed::pushed))]
    fn vote_with(&self, c: &Command) -> Result<History, NoMemory>
        ensures { IfOk result (λ vote. history_of vote ≡ push self.now.vote c.now) }
    {
        let mut vote = self.vote.copy()?;
        vote.push(c.copy()?)?;
        Ok(vote)
    }

    /// Takes a proposed command: in a fast round in which it has voted, it votes for the command if
    /// its vote lacks it. If memory runs out, nothing changes.
    pub fn propose(&mut self, epoch: u32, c: &Command) -> Result<Outs, NoMemory>
        ensures next { OnOk result (self.new ≡ (acceptor_take self.old (Proposed c.now)).0) }
        ensures sent { IfOk result (λ outs. map message_of outs ≡ option_to_list (maybe_stamped epoch (acceptor_take self.old (Proposed c.now)).1)) }
        ensures unchanged { OnErr result (self.new ≡ self.old) }
    {
        if self.accepts(c) {
            self.extend(epoch, c)
        } else {
            Ok(Outs::new(self.alloc))
        }
    }

    // The values that are held in a round that is not below its own: none in a greater one.
    fn values_in(&self, round: Round) -> &[Option<History>]
        ensures { histories result.now ≡ cond (earlier self.now.round round) [] self.now.held }
    {
        if self.round < round { &[] } else { &self.held }
    }

    // The changes that a value of a coordinator makes, computed before anything changes.
    fn plan(&self, epoch: u32, round: Round, sender: u32, value: &History) -> Result<Plan, NoMemory>
        requires reached { earlier round self.now.round ≡ false }
        requires known { sender < self.now.config.coordinators }
        ensures next { IfOk result (λ p. IsPlan self.now round sender (history_of value.now) (option_map history_of p.held) (option_map history_of p.vote)) }
        ensures agreed { IfOk result (λ p. IsAgreed (settled self.now round sender (option_map history_of p.held) (option_map history_of p.vote))) }
        ensures sent { IfOk result (λ p. map message_of p.outs ≡ option_to_list (maybe_stamped epoch (vote_sent self.now round (option_map history_of p.vote)))) }
    {
        let values = self.values_in(round);
        let newer = newer(value_at(values, sender), value)?;
        let vote = revote(
            self.alloc,
            &self.config,
            self.voted,
            round,
            &self.vote,
            values,
            sender,
            newer.as_ref(),
        )?;
        let outs = told_vote(
            self.alloc,
            epoch,
            self.number,
            self.voted,
            round,
            &self.vote,
            vote.as_ref(),
        )?;
        Ok(Plan {
            held: newer,
            vote,
            outs,
        })
    }

    // Holds a value of a coordinator and casts a vote in its round, each if there is one.
    #[tactic(auto, using(crate::proofs::Holding::histories_set))]
    fn settle(&mut self, sender: u32, value: Option<History>, vote: Option<History>)
        requires known { sender < self.old.config.coordinators }
        requires agreed { IsAgreed (with_vote (with_value self.old sender (option_map history_of value)) (option_map history_of vote)) }
        ensures { self.new ≡ with_vote (with_value self.old sender (option_map history_of value)) (option_map history_of vote) }
    {
        if let Some(value) = value {
            self.held[sender as usize] = Some(value);
        }
        if let Some(vote) = vote {
            self.voted = self.round;
            self.vote = vote;
        }
    }

    /// Takes a value of a coordinator for its round or a greater one, which it then enters. It
    /// holds the value if it holds none of that coordinator in the round, or one with fewer
    /// commands, and casts the vote that the held values give, if they give one. Any other value
    /// changes nothing. If memory runs out, nothing changes.
    #[tactic(auto, using(crate::proofs::Taking::raised_config))]
    pub fn receive(
        &mut self,
        epoch: u32,
        round: Round,
        sender: u32,
        value: &History,
    ) -> Result<Outs, NoMemory>
        ensures next { OnOk result (self.new ≡ (acceptor_take self.old (Sent round sender (history_of value.now))).0) }
        ensures sent { IfOk result (λ outs. map message_of outs ≡ option_to_list (maybe_stamped epoch (acceptor_take self.old (Sent round sender (history_of value.now))).1)) }
        ensures unchanged { OnErr result (self.new ≡ self.old) }
    {
        if round < self.round || sender >= self.config.coordinators() {
            return Ok(Outs::new(self.alloc));
        }
        let plan = self.plan(epoch, round, sender, value)?;
        self.raise(round);
        self.settle(sender, plan.held, plan.vote);
        Ok(plan.outs)
    }
}

// The value that a step holds, the vote that it casts, and what it sends.
#[derive(Drop)]
struct Plan {
    held: Option<History>,
    vote: Option<History>,
    outs: Outs,
}
