//! The world.
ghost use Rattle.std.specs.Prelude.{◌≡◌, ◌<◌, ◌^◌, ◌∷◌, [], length, slice_get, None, IfOk, OnOk, OnErr, MatchResult, MatchOption};
ghost use Rattle.std.specs.Option.{option_map, option_copied};
ghost use Rattle.gp_history.specs.Sequence.{history_of};
ghost use Rattle.gp_msg.specs.Messages.{message_of};
ghost use Rattle.gp_run.specs.Messages.{messages};
ghost use Rattle.gp_msg.specs.Records.{messages_in};
ghost use Rattle.gp_run.specs.Legal.{Legal};
ghost use Rattle.gp_run.specs.Agreement.{Agrees};
ghost use Rattle.gp_run.specs.Learned.{learned_at};
ghost use Rattle.gp_run.specs.Refusals.{refusal};
ghost use Rattle.gp_run.specs.Runs.{entry_after};
ghost use Rattle.gp_run.specs.TopCount.{top_count};
ghost use Rattle.gp_world.specs.State.{entries_of};
ghost use Rattle.gp_world.specs.Adding.{AddsRecordOf};
ghost use Rattle.gp_world.specs.Refused.{IsAnswerTo, refusal_in};

use crate::log::Log;
use crate::nodes::Nodes;
use crate::refusals::{StepRefused, check, node_of};
use gp_command::NoMemory;
use gp_index::History;
use gp_msg::{Event, Msg, Record, Records};
use gp_round::Config;
use std::alloc::Global;
use std::marker::Model;

/// All nodes of a configuration, with the records of what they did. The records of a world are a
/// legal run, whatever events it was given, and what learners show in it agrees.
#[derive(Drop)]
pub struct World {
    config: Config,
    nodes: Nodes,
    log: Log,
}

impl Model for World {
    ghost use Rattle.gp_world.specs.State.{WorldState};
    ghost use Rattle.gp_world.specs.Sound.{IsSound};

    ghost Value = { WorldState };

    ghost view = { λ w. record { config = w.config; records = w.log.records.items } };

    ghost invariant = { λ w. IsSound w.config w.log.records.items w.nodes };
}

impl World {
    /// A world in which nothing has happened. `NoMemory` if memory runs out.
    pub fn new(alloc: Global, config: Config) -> Result<World, NoMemory>
        ensures { IfOk result (λ w. w ≡ record { config = config; records = [] }) }
    {
        Ok(World {
            config,
            nodes: Nodes::new(alloc, &config)?,
            log: Log::new(alloc),
        })
    }

    /// An event happens: one record is added. Returns the number of messages that were sent up to
    /// then. An event that does not fit is refused for the first cause in the order of
    /// `StepRefused`. After a refusal, and if memory runs out, the world is unchanged. A world
    /// takes at most 2^31 events.
    pub fn step(&mut self, event: Event) -> Result<u64, StepRefused>
        requires { length self.old.records < 2 ^ 31 }
        ensures added { OnOk result (AddsRecordOf self.old self.new event) }
        ensures entry { OnOk result (entries_of self.new
            ≡ entry_after self.old.config (entries_of self.old) event ∷ entries_of self.old) }
        ensures count { IfOk result (λ n. n ≡ length (messages (entries_of self.new))) }

        // An event that does not fit is refused for its first cause. One that fits fails only if
        // memory runs out.
        ensures why { MatchResult result (λ _. refusal_in self.old event ≡ None) (λ e. IsAnswerTo (refusal_in self.old event) e) }
        ensures unchanged { OnErr result (self.new ≡ self.old) }

        ensures legal { Legal self.new.config (entries_of self.new) }
        ensures agrees { Agrees self.new.config (entries_of self.new) }
    {
        check(&self.config, self.log.messages(), &event)?;
        Ok(self.happen(event)?)
    }

    /// Message k, counted from 0, of all that were sent, or `None` if it was not sent.
    pub fn message(&self, k: u64) -> Option<&Msg>
        ensures message { option_copied result ≡ slice_get (messages_in self.now.records) k }
        ensures history { option_map message_of (option_copied result) ≡ slice_get (messages (entries_of self.now)) k }
    {
        self.log.message(k)
    }

    /// The number of messages that were sent.
    pub fn messages(&self) -> u64
        ensures { result ≡ length (messages (entries_of self.now)) }
    {
        self.log.messages()
    }

    /// The history that a learner of the configuration shows: what it learned since its last crash,
    /// over all epochs.
    pub fn learned(&self, learner: u32) -> &History
        requires { learner < self.now.config.learners }
        ensures learned { history_of result.now ≡ learned_at self.now.config learner (entries_of self.now) }
        ensures agrees { Agrees self.now.config (entries_of self.now) }
    {
        self.nodes.learned(learner)
    }

    /// The records of what happened, the oldest first.
    pub fn records(&self) -> &[Record]
        ensures value { result.now ≡ self.now.records }
        ensures legal { Legal self.now.config (entries_of self.now) }
        ensures agrees { Agrees self.now.config (entries_of self.now) }
    {
        &self.log.records
    }

    /// The configuration.
    pub fn config(&self) -> &Config
        ensures { result.now ≡ self.now.config }
    {
        &self.config
    }

    /// The greatest count of a round in a message or a node, and 0 if there is none.
    pub fn top_count(&self) -> u32
        ensures { result ≡ top_count self.now.config (entries_of self.now) }
    {
        self.log.top.max(self.nodes.top_count())
    }

    /// Returns the records alone, the oldest first.
    pub fn into_records(self) -> Records
        ensures value { result ≡ self.records }
        ensures legal { Legal self.config (entries_of self) }
        ensures agrees { Agrees self.config (entries_of self) }
    {
        self.log.into_records()
    }

    // An event that fits happens. If memory runs out, nothing changes.
    fn happen(&mut self, event: Event) -> Result<u64, NoMemory>
        requires few { length self.old.records < 2 ^ 31 }
        requires unrefused { refusal self.old.config (entries_of self.old) event ≡ None }
        ensures added { OnOk result (AddsRecordOf self.old self.new event) }
        ensures entry { OnOk result (entries_of self.new
            ≡ entry_after self.old.config (entries_of self.old) event ∷ entries_of self.old) }
        ensures count { IfOk result (λ n. n ≡ length (messages (entries_of self.new))) }
        ensures unchanged { OnErr result (self.new ≡ self.old) }
        ensures legal { Legal self.new.config (entries_of self.new) }
        ensures agrees { Agrees self.new.config (entries_of self.new) }
    {
        self.log.reserve()?;
        let out = self.nodes.act(&event, self.log.named(&event))?;
        let node = node_of(&event);
        self.log.post(Record { node, event, out });
        Ok(self.log.messages())
    }
}
