//! The state of a coordinator in its epoch, and what it does there.
ghost use Rattle.std.specs.Prelude.{◌≡◌, ◌<◌, IfOk, OnOk, OnErr, true, not, Option, Some, None, map, filter};
ghost use Rattle.std.specs.Option.{option_map, option_to_list, option_copied};
ghost use Rattle.gp_history.specs.History.{has, pushes};
ghost use Rattle.gp_history.specs.Sequence.{history_of};
ghost use Rattle.gp_round.specs.Configs.{is_owner};
ghost use Rattle.gp_safe.specs.Choice.{reply_of};
ghost use Rattle.gp_msg.specs.Messages.{message_of, maybe_stamped, Asked, Proposed, Answered, Coordinators};
ghost use Rattle.gp_coordinator.specs.Replies.{reply_at};
ghost use Rattle.gp_coordinator.specs.Table.{opening, begun, expects, answered, coordinator_begin, coordinator_take, coordinator_fall};
ghost use Rattle.gp_coordinator.specs.Steps.{in_round_zero, with_pending, with_reply, with_value, sent_of, extension, choice};

use crate::answers::Answers;
use gp_command::{Command, NoMemory};
use gp_history::Hist;
use gp_index::History;
use gp_msg::{Msg, Outs};
use gp_round::{Config, Mode, Round};
use gp_safe::{Answer, pick};
use std::alloc::Global;
use std::marker::Model;

/// The state of a coordinator in its epoch, with all pending commands.
///
/// It is in one round at a time. It takes answers of phase 1 only while it is awake: after it began
/// its round, or entered a multi round that another coordinator began, and until a crash or the
/// next epoch. A contract sees the answer of each acceptor, and the value as a history.
#[derive(Drop)]
pub struct Part {
    alloc: Global,
    config: Config,
    number: u32,
    round: Round,
    awake: bool,
    answers: Answers,
    value: Option<History>,
    pending: History,
}

impl Model for Part {
    ghost use Rattle.std.specs.Prelude.{◌≡◌, length};
    ghost use Rattle.std.specs.Option.{option_map};
    ghost use Rattle.gp_history.specs.Sequence.{history_of};
    ghost use Rattle.gp_coordinator.specs.Codes.{state_code};
    ghost use Rattle.gp_coordinator.specs.State.{CoordinatorState};

    ghost Value = { CoordinatorState };

    ghost coded = { state_code };

    ghost view = { λ c. record { config = c.config; number = c.number; round = c.round; awake = c.awake; answers = c.answers; value = option_map history_of c.value; pending = c.pending } };

    ghost invariant = { λ c. length c.answers ≡ c.config.acceptors };
}

impl Part {
    /// The state at the start: it is in round zero. `NoMemory` if memory runs out.
    #[tactic(auto, using(crate::proofs::Replying::length_unanswered))]
    pub fn new(alloc: Global, config: &Config, number: u32) -> Result<Part, NoMemory>
        ensures { IfOk result (λ c. c ≡ opening config.now number) }
    {
        Ok(Part {
            alloc,
            config: *config,
            number,
            round: Round::zero(),
            awake: false,
            answers: Answers::new(alloc, config.acceptors()),
            value: None,
            pending: History::empty(alloc)?,
        })
    }

    /// Its round, which survives a crash.
    pub fn round(&self) -> Round
        ensures { result ≡ self.now.round }
    {
        self.round
    }

    /// Begins a round that it owns, and returns the message that asks the acceptors to join. If the
    /// round is not greater than its own, nothing changes, and there is no message. If memory runs
    /// out, nothing changes.
    pub fn begin(&mut self, epoch: u32, round: Round) -> Result<Outs, NoMemory>
        requires { is_owner self.old.config.coordinators self.old.number round ≡ true }
        ensures next { OnOk result (self.new ≡ (coordinator_begin self.old round).0) }
        ensures sent { IfOk result (λ outs. map message_of outs ≡ option_to_list (maybe_stamped epoch (coordinator_begin self.old round).1)) }
        ensures unchanged { OnErr result (self.new ≡ self.old) }
    {
        let mut outs = Outs::new(self.alloc);
        if self.round < round {
            outs.push(Msg::P1a { epoch, round })?;
            self.enter(round);
        }
        Ok(outs)
    }

    /// Crashes and restarts with this round: it is not awake, and nothing is pending.
    #[tactic(auto, using(crate::proofs::Replying::length_unanswered))]
    pub fn fall(&mut self, durable: Round)
        ensures { self.new ≡ coordinator_fall self.old (Coordinators durable) }
    {
        self.round = durable;
        self.awake = false;
        self.answers.clear();
        self.value = None;
        self.pending.clear();
    }

    /// An equal part. `NoMemory` if memory runs out.
    pub fn copy(&self) -> Result<Part, NoMemory>
        ensures { IfOk result (λ copy. copy ≡ self.now) }
    {
        Ok(Part {
            alloc: self.alloc,
            config: self.config,
            number: self.number,
            round: self.round,
            awake: self.awake,
            answers: self.answers.copy()?,
            value: copy_value(self.value.as_ref())?,
            pending: self.pending.copy()?,
        })
    }

    /// Leaves its epoch: it is then in round zero, not awake, and without answers and value. The
    /// pending commands stay.
    #[tactic(auto, using(crate::proofs::Replying::length_unanswered))]
    pub fn leave(&mut self)
        ensures { self.new ≡ in_round_zero self.old }
    {
        self.round = Round::zero();
        self.awake = false;
        self.answers.clear();
        self.value = None;
    }

    /// The pending commands that a value lacks, in their order. `NoMemory` if memory runs out.
    pub fn rest(&self, value: &History) -> Result<History, NoMemory>
        ensures { IfOk result (λ rest. rest ≡ filter (λ c. not (has (history_of value.now) c)) self.now.pending) }
    {
        let mut rest = History::empty(self.alloc)?;
        for i in 0..self.pending.len() {
            let c = self.pending.at(i);
            if !value.has(c) {
                rest.push(c.copy()?)?;
            }
        }
        Ok(rest)
    }

    /// Replaces the pending commands by these.
    pub fn set_pending(&mut self, pending: History)
        ensures { self.new ≡ record self.old { pending = pending } }
    {
        self.pending = pending;
    }

    // Enters phase 1 of a round.
    #[tactic(auto, using(crate::proofs::Replying::length_unanswered))]
    fn enter(&mut self, round: Round)
        ensures { self.new ≡ begun self.old round }
    {
        self.round = round;
        self.awake = true;
        self.answers.clear();
        self.value = None;
    }

    /// Enters a multi round that another coordinator began, if it is greater than its own.
    /// Otherwise nothing changes.
    pub fn follow(&mut self, round: Round)
        ensures { self.new ≡ (coordinator_take self.old (Asked round)).0 }
    {
        if round.mode == Mode::Multi && self.round < round {
            self.enter(round);
        }
    }

    /// Keeps a proposed command as pending. If its value lacks the command and the round is not
    /// fast, it appends the command to the value, and returns the message that sends the value. In
    /// a fast round the acceptors take commands from the proposers. If memory runs out, nothing
    /// changes.
    pub fn propose(&mut self, epoch: u32, c: &Command) -> Result<Outs, NoMemory>
        ensures next { OnOk result (self.new ≡ (coordinator_take self.old (Proposed c.now)).0) }
        ensures sent { IfOk result (λ outs. map message_of outs ≡ option_to_list (maybe_stamped epoch (coordinator_take self.old (Proposed c.now)).1)) }
        ensures unchanged { OnErr result (self.new ≡ self.old) }
    {
        let value = self.extend(c)?;
        let outs = self.announce(epoch, value.as_ref())?;
        self.keep(c.copy()?)?;
        self.replace_value(value);
        Ok(outs)
    }

    // The value with one more command, if that is to be sent.
    #[tactic(auto, using(gp_safe::proofs::Pushed::pushed))]
    fn extend(&self, c: &Command) -> Result<Option<History>, NoMemory>
        ensures { IfOk result (λ v. option_map history_of v ≡ extension self.now.round.mode self.now.value c.now) }
    {
        match &self.value {
            Some(value) if !value.has(c) && self.round.mode != Mode::Fast => {
                let mut value = value.copy()?;
                value.push(c.copy()?)?;
                Ok(Some(value))
            }
            _ => Ok(None),
        }
    }

    // Appends a command to the pending ones, if it is not there.
    #[tactic(auto, using(crate::proofs::Stepping::kept))]
    fn keep(&mut self, c: Command) -> Result<(), NoMemory>
        ensures kept { OnOk result (self.new ≡ with_pending self.old c) }
        ensures unchanged { OnErr result (self.new ≡ self.old) }
    {
        self.pending.push(c)?;
        Ok(())
    }

    // The message that sends a new value, if there is one.
    fn announce(&self, epoch: u32, value: Option<&History>) -> Result<Outs, NoMemory>
        ensures { IfOk result (λ outs. map message_of outs ≡ option_to_list (maybe_stamped epoch (sent_of self.now (option_map history_of (option_copied value.entry))))) }
    {
        let mut outs = Outs::new(self.alloc);
        if let Some(value) = value {
            outs.push(Msg::P2a {
                epoch,
                round: self.round,
                coordinator: self.number,
                value: value.copy()?,
            })?;
        }
        Ok(outs)
    }

    // Replaces the value by a new one, if there is one.
    fn replace_value(&mut self, value: Option<History>)
        ensures { self.new ≡ with_value self.old (option_map history_of value) }
    {
        if value.is_some() {
            self.value = value;
        }
    }

    /// Takes an answer of phase 1 for its round, the first of its acceptor. When a quorum has
    /// answered, it chooses a value, and returns the message that sends the value. Any other answer
    /// changes nothing. If memory runs out, nothing changes.
    #[tactic(auto, using(crate::proofs::Stepping::expected_first, crate::proofs::Stepping::expected_known, crate::proofs::Stepping::forgotten))]
    pub fn collect(
        &mut self,
        epoch: u32,
        round: Round,
        acceptor: u32,
        voted: Round,
        vote: &History,
    ) -> Result<Outs, NoMemory>
        ensures next { OnOk result (self.new ≡ (coordinator_take self.old (Answered round acceptor voted (history_of vote.now))).0) }
        ensures sent { IfOk result (λ outs. map message_of outs ≡ option_to_list (maybe_stamped epoch (coordinator_take self.old (Answered round acceptor voted (history_of vote.now))).1)) }
        ensures unchanged { OnErr result (self.new ≡ self.old) }
    {
        if !self.expects(round, acceptor) {
            return Ok(Outs::new(self.alloc));
        }
        self.note(Answer {
            acceptor,
            round: voted,
            vote: vote.copy()?,
        })?;
        match self.decide(epoch) {
            Ok(outs) => Ok(outs),
            Err(refused) => {
                self.forget(acceptor);
                Err(refused)
            }
        }
    }

    // Whether it waits for an answer: the first of an acceptor, in phase 1 of its round.
    fn expects(&self, round: Round, acceptor: u32) -> bool
        ensures { result ≡ expects self.now round acceptor }
    {
        self.awake
            && round == self.round
            && self.value.is_none()
            && acceptor < self.config.acceptors()
            && !self.answers.has(acceptor)
    }

    // Keeps the first answer of an acceptor.
    #[tactic(auto, using(crate::proofs::Replying::length_of_set))]
    fn note(&mut self, answer: Answer) -> Result<(), NoMemory>
        requires known { answer.acceptor < self.old.config.acceptors }
        requires first { reply_at self.old.answers answer.acceptor ≡ None }
        ensures kept { OnOk result (self.new ≡ with_reply self.old answer.acceptor (Some (reply_of answer))) }
        ensures unchanged { OnErr result (self.new ≡ self.old) }
    {
        self.answers.push(answer)
    }

    // Forgets the answer of an acceptor.
    #[tactic(auto, using(crate::proofs::Replying::length_of_set))]
    fn forget(&mut self, acceptor: u32)
        ensures { self.new ≡ with_reply self.old acceptor None }
    {
        self.answers.remove(acceptor);
    }

    // Chooses and sends the value that the answers give, if they are those of a quorum.
    fn decide(&mut self, epoch: u32) -> Result<Outs, NoMemory>
        ensures next { OnOk result (self.new ≡ (answered self.old).0) }
        ensures sent { IfOk result (λ outs. map message_of outs ≡ option_to_list (maybe_stamped epoch (answered self.old).1)) }
        ensures unchanged { OnErr result (self.new ≡ self.old) }
    {
        let value = self.choose()?;
        let outs = self.announce(epoch, value.as_ref())?;
        self.replace_value(value);
        Ok(outs)
    }

    // The safe choice, followed by all pending commands, if a quorum of phase 1 has answered.
    #[tactic(auto, using(crate::proofs::Stepping::chosen_by))]
    fn choose(&self) -> Result<Option<History>, NoMemory>
        ensures { IfOk result (λ v. option_map history_of v ≡ choice self.now) }
    {
        if self.answers.count() < self.config.first_quorum() {
            return Ok(None);
        }
        let mut value = pick(self.alloc, &self.config, self.answers.as_slice())?;
        push_all(&mut value, &self.pending)?;
        Ok(Some(value))
    }
}

fn copy_value(value: Option<&History>) -> Result<Option<History>, NoMemory>
    ensures { IfOk result (λ copy. copy ≡ option_copied value.entry) }
{
    match value {
        None => Ok(None),
        Some(value) => Ok(Some(value.copy()?)),
    }
}

// Pushes all commands of another history, in the order of its sequence.
fn push_all(value: &mut History, commands: &History) -> Result<(), NoMemory>
    ensures { IfOk result (λ _. history_of value.new ≡ pushes (history_of value.old) commands.now) }
{
    for i in 0..commands.len() {
        value.push(commands.at(i).copy()?)?;
    }
    Ok(())
}
