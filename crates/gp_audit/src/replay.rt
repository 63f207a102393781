//! The replay of a learner, which takes again what it took.
ghost use Rattle.std.specs.Prelude.{◌≡◌, ◌<◌, ◌+◌, ◌-◌, ◌^◌, ℕ, [], length, take, IfOk, OnOk};
ghost use Rattle.gp_history.specs.History.{History};
ghost use Rattle.gp_history.specs.Sequence.{history_of};
ghost use Rattle.gp_msg.specs.Messages.{message_of, Voted, InEpoch, Final};
ghost use Rattle.gp_learner.specs.Epochs as learner_epochs;
ghost use Rattle.gp_run.specs.Runs.{newest_first};
ghost use Rattle.gp_audit.specs.Replays.{IsInStep, NotesVotes, KeepsAllButEpoch, Takes, IsReplayed};

use crate::held::hold_newer;
use crate::own::{OwnEvent, own_event};
use crate::proof::Proof;
use crate::quorums::whole_quorums;
use crate::source::{Source, has_new, push_new};
use gp_command::NoMemory;
use gp_history::Hist;
use gp_index::History;
use gp_learner::{HeldVote, Learner};
use gp_msg::Msg;
use gp_round::{Config, Round};
use gp_world::World;
use std::alloc::Global;
use std::collections::BTreeMap;

/// A learner that takes again what it took, with the votes that it holds, and the proofs of the
/// commands that it came to hold since it last started.
#[derive(Drop)]
pub struct Replay {
    pub alloc: Global,
    pub config: Config,
    pub number: u32,
    pub learner: Learner,
    pub epoch: u32,
    pub votes: BTreeMap<(Round, u32), HeldVote>,
    pub proofs: Vec<Proof>,
}

impl Replay {
    /// The learner before it took anything.
    pub fn new(alloc: Global, config: &Config, number: u32) -> Result<Replay, NoMemory>
        ensures { IfOk result (λ r. IsReplayed config.now [] number r) }
    {
        Ok(Replay {
            alloc,
            config: *config,
            number,
            learner: Learner::new(alloc, config, number)?,
            epoch: 0,
            votes: BTreeMap::new(alloc),
            proofs: Vec::new(alloc),
        })
    }

    /// Repeats what happened at the learner in a record of the world.
    pub fn step(&mut self, world: &World, at: usize) -> Result<(), NoMemory>
        requires there { at < length world.now.records }
        requires before { IsReplayed world.now.config (newest_first (take at world.now.records)) self.old.number self.old }
        ensures { OnOk result (IsReplayed world.now.config (newest_first (take (at + 1) world.now.records)) self.old.number self.new) }
    {
        match own_event(&world.records()[at].event, self.number) {
            OwnEvent::Takes(k) => match world.message(k) {
                Some(m) => self.take(at as u64, k, m),
                None => Ok(()),
            },
            OwnEvent::Falls => {
                self.fall();
                Ok(())
            }
            OwnEvent::Elsewhere => Ok(()),
        }
    }

    // The learner crashes, and its proofs are dropped.
    fn fall(&mut self)
        requires { IsInStep self.old }
        ensures step { IsInStep self.new }
        ensures number { self.new.number ≡ self.old.number }
        ensures next { self.new.learner ≡ learner_epochs.fall self.old.learner }
        ensures proofs { self.new.proofs.items ≡ [] }
    {
        self.learner.fall();
        self.epoch = 0;
        self.votes.clear();
        self.proofs.clear();
    }

    // The learner takes message k. In the last epoch that fits the type, the result is `NoMemory`.
    fn take(&mut self, at: u64, k: u64, m: &Msg) -> Result<(), NoMemory>
        requires { IsInStep self.old }
        ensures takes { OnOk result (Takes self.old self.new at k (message_of m.now)) }
        ensures some { 0 < self.old.config.acceptors }
    {
        let acceptors = self.config.acceptors();
        if self.epoch == u32::MAX {
            return Err(NoMemory);
        }
        match m {
            Msg::P2b {
                epoch,
                round,
                acceptor,
                vote,
            } => {
                if *epoch != self.epoch || *acceptor >= acceptors {
                    return Ok(());
                }
                self.hear(at, m, *round, *acceptor, vote)
            }
            Msg::Final { epoch, .. } => {
                if *epoch != self.epoch {
                    return Ok(());
                }
                self.pass(at, k, m)
            }
            Msg::Propose { .. } | Msg::P1a { .. } | Msg::P1b { .. } | Msg::P2a { .. } => Ok(()),
        }
    }

    // The learner takes a vote of its epoch.
    fn hear(
        &mut self,
        at: u64,
        m: &Msg,
        round: Round,
        acceptor: u32,
        vote: &History,
    ) -> Result<(), NoMemory>
        requires step { IsInStep self.old }
        requires room { self.old.epoch < 2 ^ 32 - 1 }
        requires known { acceptor < self.old.config.acceptors }
        requires message { message_of m.now ≡ InEpoch self.old.epoch (Voted round acceptor (history_of vote.now)) }
        ensures { (k : ℕ) → OnOk result (Takes self.old self.new at k (message_of m.now)) }
    {
        hold_newer(&mut self.votes, round, acceptor, vote)?;
        let known = self.learner.learned().copy()?;
        let outs = self.learner.take(m)?;
        self.note_votes(at, round, &known)?;
        if !outs.as_slice().is_empty() {
            self.enter();
        }
        Ok(())
    }

    // The learner takes message k, a Final of its epoch.
    fn pass(&mut self, at: u64, k: u64, m: &Msg) -> Result<(), NoMemory>
        requires step { IsInStep self.old }
        requires room { self.old.epoch < 2 ^ 32 - 1 }
        requires message { (l : ℕ) × (v : History) × (message_of m.now ≡ Final self.old.epoch l v) }
        ensures { OnOk result (Takes self.old self.new at k (message_of m.now)) }
    {
        let known = self.learner.learned().copy()?;
        let _outs = self.learner.take(m)?;
        let source = Source::Final { message: k };
        push_new(
            self.learner.learned(),
            &known,
            at,
            &source,
            &mut self.proofs,
        )?;
        self.enter();
        Ok(())
    }

    // Adds the proofs of the commands that came with a vote of a round.
    fn note_votes(&mut self, at: u64, round: Round, known: &History) -> Result<(), NoMemory>
        ensures { OnOk result (NotesVotes self.old self.new at round (history_of known.now)) }
    {
        if !has_new(self.learner.learned(), known) {
            return Ok(());
        }
        let n = self.config.acceptors();
        let size = self.config.quorum(round.mode);
        let quorums = whole_quorums(self.alloc, &self.votes, round, n, size)?;
        let source = Source::Vote {
            epoch: self.epoch,
            round,
            quorums,
        };
        push_new(self.learner.learned(), known, at, &source, &mut self.proofs)?;
        Ok(())
    }

    // Enters the next epoch, in which no votes are held.
    fn enter(&mut self)
        requires { self.old.epoch < 2 ^ 32 - 1 }
        ensures epoch { self.new.epoch ≡ self.old.epoch + 1 }
        ensures votes { self.new.votes.entries ≡ [] }
        ensures same { KeepsAllButEpoch self.old self.new }
    {
        self.epoch += 1;
        self.votes.clear();
    }
}
