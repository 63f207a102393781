//! The state of a learner in its epoch.
ghost use Rattle.std.specs.Prelude.{◌≡◌, ◌<◌, [], nat_lt, map, Some, IfOk, OnOk, OnErr, IsNone, unwrap_or};
ghost use Rattle.std.specs.Option.{option_map};
ghost use Rattle.gp_history.specs.Sequence.{history_of};
ghost use Rattle.gp_msg.specs.Messages.{Voted};
ghost use Rattle.gp_safe.specs.Held.{newer};
ghost use Rattle.gp_learner.specs.Table.{opening, hearing, learner_take, learned_with, heard, vote_of, votes_held};

use crate::votes::{HeldVote, Votes, held_of, hold};
use gp_command::NoMemory;
use gp_history::Hist;
use gp_index::History;
use gp_round::{Config, Round};
use gp_safe::{join_news, newer};
use std::alloc::Global;
use std::collections::BTreeMap;
use std::marker::Model;

/// The votes that a learner holds in its epoch, and its part, which is what it learned from them.
#[derive(Drop)]
pub struct Part {
    alloc: Global,
    config: Config,
    number: u32,
    votes: BTreeMap<(Round, u32), HeldVote>,
    learned: History,
}

impl Model for Part {
    ghost use Rattle.gp_history.specs.Sequence.{history_of};
    ghost use Rattle.gp_learner.specs.State.{LearnerState};
    ghost use Rattle.gp_learner.specs.Codes.{state_code};
    ghost use Rattle.gp_learner.specs.UpToDate.{IsUpToDate};

    ghost Value = { LearnerState };

    ghost coded = { state_code };

    ghost view = { λ l. record { config = l.config; number = l.number; votes = l.votes.entries; learned = history_of l.learned } };

    ghost invariant = { λ l. IsUpToDate l.config.acceptors l.votes.entries (history_of l.learned) };
}

impl Part {
    /// The state at the start: nothing was heard. `NoMemory` if memory runs out.
    #[tactic(auto, using(gp_history::proofs::Pushing::history_of_nothing, crate::proofs::StaysUpToDate::up_to_date_at_start))]
    pub fn new(alloc: Global, config: &Config, number: u32) -> Result<Part, NoMemory>
        ensures { IfOk result (λ l. l ≡ opening config.now number) }
    {
        Ok(Part {
            alloc,
            config: *config,
            number,
            votes: BTreeMap::new(alloc),
            learned: History::empty(alloc)?,
        })
    }

    /// What it learned in its epoch so far.
    pub fn learned(&self) -> &History
        ensures { history_of result.now ≡ self.now.learned }
    {
        &self.learned
    }

    /// The number of the learner.
    pub fn number(&self) -> u32
        ensures { result ≡ self.now.number }
    {
        self.number
    }

    /// Whether an acceptor is one of the configuration.
    pub fn knows(&self, acceptor: u32) -> bool
        ensures { result ≡ nat_lt acceptor self.now.config.acceptors }
    {
        acceptor < self.config.acceptors()
    }

    /// Returns to the state at the start.
    #[tactic(auto, using(gp_history::proofs::Pushing::history_of_nothing, crate::proofs::StaysUpToDate::up_to_date_at_start))]
    pub fn clear(&mut self)
        ensures { self.new ≡ opening self.old.config self.old.number }
    {
        self.votes.clear();
        self.learned.clear();
    }

    /// An equal part. `NoMemory` if memory runs out.
    pub fn copy(&self) -> Result<Part, NoMemory>
        ensures { IfOk result (λ copy. copy ≡ self.now) }
    {
        Ok(Part {
            alloc: self.alloc,
            config: self.config,
            number: self.number,
            votes: self.votes.clone()?,
            learned: self.learned.copy()?,
        })
    }

    /// A copy of a vote, if it is to be held: no vote of its acceptor is held in that round, or one
    /// with fewer commands. If it is not to be held, the result is `None`, and the vote changes
    /// nothing: what the quorums of its round voted for is learned already. `NoMemory` if memory
    /// runs out.
    pub fn to_hold(
        &self,
        round: Round,
        acceptor: u32,
        vote: &History,
    ) -> Result<Option<History>, NoMemory>
        requires known { acceptor < self.now.config.acceptors }
        ensures vote { IfOk result (λ v. option_map history_of v ≡ newer (vote_of self.now.votes round acceptor) (history_of vote.now)) }
        ensures idle { IfOk result (λ v. IsNone v → learner_take self.now (Voted round acceptor (history_of vote.now)) ≡ self.now) }
    {
        newer(held_of(&self.votes, round, acceptor), vote)
    }

    /// What is learned after a vote is held too. It is `None` only if that is what was learned
    /// before. `NoMemory` if memory runs out.
    pub fn learned_with(
        &self,
        round: Round,
        acceptor: u32,
        vote: &History,
    ) -> Result<Option<History>, NoMemory>
        requires { acceptor < self.now.config.acceptors }
        ensures { IfOk result (λ l. unwrap_or (option_map history_of l) self.now.learned ≡ (hearing self.now round (votes_held self.now.votes round acceptor (Some (history_of vote.now)))).learned) }
    {
        let votes = Votes {
            votes: &self.votes,
            round,
        };
        let n = self.config.acceptors();
        let size = self.config.quorum(round.mode);
        join_news(self.alloc, &self.learned, &votes, acceptor, vote, n, size)
    }

    /// Holds a vote, with what is learned then. `None` means that this is what was learned before.
    /// If memory runs out, nothing changes.
    pub fn hold(
        &mut self,
        round: Round,
        acceptor: u32,
        vote: History,
        learned: Option<History>,
    ) -> Result<(), NoMemory>
        requires learned { unwrap_or (option_map history_of learned) self.old.learned ≡ learned_with self.old.learned (heard self.old.config.acceptors round (vote_of (votes_held self.old.votes round acceptor (Some (history_of vote))) round)) }
        ensures next { OnOk result (self.new ≡ hearing self.old round (votes_held self.old.votes round acceptor (Some (history_of vote)))) }
        ensures unchanged { OnErr result (self.new ≡ self.old) }
    {
        hold(&mut self.votes, round, acceptor, vote)?;
        if let Some(learned) = learned {
            self.learned = learned;
        }
        Ok(())
    }
}
