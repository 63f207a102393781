//! A node to which nothing has happened.
ghost use Rattle.std.specs.Prelude.{◌≡◌, IfOk};
ghost use Rattle.std.specs.Option.{option_map};
ghost use Rattle.gp_msg.specs.Messages.{part_of};
ghost use Rattle.gp_cell.specs.Cores.{opening, part_in};

use crate::roles::Core;
use gp_acceptor::Acceptor;
use gp_command::NoMemory;
use gp_coordinator::Coordinator;
use gp_learner::Learner;
use gp_msg::{Durable, Node};
use gp_proposer::Proposer;
use gp_round::Config;
use std::alloc::Global;

/// The core of a node to which nothing has happened.
pub(crate) fn opening_core(alloc: Global, config: &Config, node: Node) -> Result<Core, NoMemory>
    ensures { IfOk result (λ core. core ≡ opening config.now node) }
{
    match node {
        Node::Proposer(n) => Ok(Core::Proposer(Proposer::new(n))),
        Node::Coordinator(n) => Ok(Core::Coordinator(Coordinator::new(alloc, config, n)?)),
        Node::Acceptor(n) => Ok(Core::Acceptor(Acceptor::new(alloc, config, n)?)),
        Node::Learner(n) => Ok(Core::Learner(Learner::new(alloc, config, n)?)),
    }
}

/// The durable part of a node to which nothing has happened, if its role has one.
pub(crate) fn opening_part(
    alloc: Global,
    config: &Config,
    node: Node,
) -> Result<Option<Durable>, NoMemory>
    ensures { IfOk result (λ d. option_map part_of d ≡ part_in (opening config.now node)) }
{
    match node {
        Node::Proposer(_) | Node::Learner(_) => Ok(None),
        Node::Coordinator(n) => {
            let core = Coordinator::new(alloc, config, n)?;
            Ok(Some(core.durable()))
        }
        Node::Acceptor(n) => {
            let core = Acceptor::new(alloc, config, n)?;
            Ok(Some(core.durable()?))
        }
    }
}
