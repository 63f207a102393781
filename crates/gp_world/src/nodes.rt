//! All nodes of a configuration.
ghost use Rattle.std.specs.Prelude.{◌≡◌, ◌<◌, ◌^◌, ◌-◌, [], length, map, slice_get, Some, IfOk, OnOk, OnErr};
ghost use Rattle.std.specs.Option.{option_map, option_to_list, option_copied};
ghost use Rattle.gp_history.specs.Sequence.{history_of};
ghost use Rattle.gp_msg.specs.Messages.{message_of, epoch_of};
ghost use Rattle.gp_run.specs.TopCount.{greatest_count};
ghost use Rattle.gp_world.specs.Nodes.{nodes_at, IsThere};
ghost use Rattle.gp_world.specs.Acting.{after_event, sent_at_event, after_take, sent_at_take, after_fall, CanAct, HasRoom};

use crate::{acceptors, coordinators, learners, proposers};
use gp_acceptor::Acceptor;
use gp_command::NoMemory;
use gp_coordinator::Coordinator;
use gp_index::History;
use gp_learner::Learner;
use gp_msg::{Event, Kept, Msg, Node, Outs};
use gp_proposer::Proposer;
use gp_round::Config;
use std::alloc::Global;
use std::marker::Model;

/// The nodes of a configuration, each kind in the order of its numbers.
#[derive(Drop)]
pub struct Nodes {
    alloc: Global,
    proposers: Vec<Proposer>,
    coordinators: Vec<Coordinator>,
    acceptors: Vec<Acceptor>,
    learners: Vec<Learner>,
}

impl Model for Nodes {
    ghost use Rattle.gp_world.specs.Nodes.{NodesState};
    ghost use Rattle.gp_world.specs.Codes.{nodes_code};

    ghost Value = { NodesState };

    ghost coded = { nodes_code };

    ghost view = { λ n. record { proposers = n.proposers.items; coordinators = n.coordinators.items; acceptors = n.acceptors.items; learners = n.learners.items } };
}

impl Nodes {
    /// The nodes of a configuration in their opening states.
    pub fn new(alloc: Global, config: &Config) -> Result<Nodes, NoMemory>
        ensures opening { IfOk result (λ n. n ≡ nodes_at config.now []) }
        ensures some { OnOk result (0 < config.now.acceptors) }
    {
        Ok(Nodes {
            alloc,
            proposers: proposers::new_all(alloc)?,
            coordinators: coordinators::new_all(alloc, config)?,
            acceptors: acceptors::new_all(alloc, config)?,
            learners: learners::new_all(alloc, config)?,
        })
    }

    /// An event happens at its node. Returns what the node sends. `m` is the message that the event
    /// names. If memory runs out, nothing changes.
    pub fn act(&mut self, event: &Event, m: Option<&Msg>) -> Result<Outs, NoMemory>
        requires { CanAct self.old event.now (option_map message_of (option_copied m)) }
        ensures next { OnOk result (self.new
            ≡ after_event self.old event.now (option_map message_of (option_copied m.entry))) }
        ensures sent { IfOk result (λ outs. map message_of outs
            ≡ option_to_list (sent_at_event self.old event.now (option_map message_of (option_copied m.entry)))) }
        ensures unchanged { OnErr result (self.new ≡ self.old) }
    {
        match event {
            Event::Offer { proposer, draft } => {
                proposers::offer(&mut self.proposers, self.alloc, *proposer, draft)
            }
            Event::Begin { coordinator, round } => {
                coordinators::begin(&mut self.coordinators, *coordinator, *round)
            }
            Event::Take { node, .. } => match m {
                Some(m) => self.take(*node, m),
                None => Ok(Outs::new(self.alloc)),
            },
            Event::Fall { node, kept } => {
                self.fall(*node, *kept, m)?;
                Ok(Outs::new(self.alloc))
            }
        }
    }

    /// The history that learner `l` shows.
    pub fn learned(&self, l: u32) -> &History
        requires { l < length self.now.learners }
        ensures { option_map (λ s. s.learned) (slice_get self.now.learners l) ≡ Some (history_of result.now) }
    {
        learners::learned(&self.learners, l)
    }

    /// The greatest count among the rounds of the coordinators, and 0 if there are no coordinators.
    pub fn top_count(&self) -> u32
        ensures { result ≡ greatest_count (map (λ s. s.state.round) self.now.coordinators) }
    {
        coordinators::top_count(&self.coordinators)
    }

    // A node takes a message.
    fn take(&mut self, node: Node, m: &Msg) -> Result<Outs, NoMemory>
        requires there { IsThere self.old node }
        requires room { epoch_of (message_of m.now) < 2 ^ 32 - 1 }
        ensures next { OnOk result (self.new ≡ after_take self.old node (message_of m.now)) }
        ensures sent { IfOk result (λ outs. map message_of outs
            ≡ option_to_list (sent_at_take self.old node (message_of m.now))) }
        ensures unchanged { OnErr result (self.new ≡ self.old) }
    {
        match node {
            Node::Proposer(_) => Ok(Outs::new(self.alloc)),
            Node::Coordinator(c) => coordinators::take(&mut self.coordinators, c, m),
            Node::Acceptor(a) => acceptors::take(&mut self.acceptors, a, m),
            Node::Learner(l) => learners::take(&mut self.learners, l, m),
        }
    }

    // A node crashes, and keeps the step that `kept` names.
    fn fall(&mut self, node: Node, kept: Option<Kept>, m: Option<&Msg>) -> Result<(), NoMemory>
        requires there { IsThere self.old node }
        requires room { HasRoom (option_map message_of (option_copied m)) }
        ensures next { OnOk result (self.new
            ≡ after_fall self.old node kept (option_map message_of (option_copied m.entry))) }
        ensures unchanged { OnErr result (self.new ≡ self.old) }
    {
        match node {
            Node::Proposer(_) => Ok(()),
            Node::Coordinator(c) => coordinators::fall(&mut self.coordinators, c, kept, m),
            Node::Acceptor(a) => acceptors::fall(&mut self.acceptors, a, kept, m),
            Node::Learner(l) => {
                learners::fall(&mut self.learners, l);
                Ok(())
            }
        }
    }
}
