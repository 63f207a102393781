//! The nodes of a configuration.
ghost use Rattle.std.specs.Prelude.{◌≡◌, ◌++◌, IfOk, OnOk};
ghost use Rattle.gp_seats.specs.Nodes.{node_of, first_of, all_nodes};

use gp_command::{NoMemory, PROPOSERS};
use gp_msg::Node;
use gp_round::Config;
use std::alloc::Global;

/// The role of a node.
#[derive(Clone, Copy)]
pub enum Role {
    Acceptor,
    Coordinator,
    Learner,
    Proposer,
}

impl Role {
    /// The node of this role with this number.
    pub fn node(self, number: u32) -> Node
        ensures { result ≡ node_of self number }
    {
        match self {
            Role::Acceptor => Node::Acceptor(number),
            Role::Coordinator => Node::Coordinator(number),
            Role::Learner => Node::Learner(number),
            Role::Proposer => Node::Proposer(number),
        }
    }
}

// Appends the first `count` nodes of a role.
fn push_first(nodes: &mut Vec<Node>, role: Role, count: u32) -> Result<(), NoMemory>
    ensures { OnOk result (nodes.new.items ≡ nodes.old.items ++ first_of role count) }
{
    for number in 0..count {
        nodes.push(role.node(number))?;
    }
    Ok(())
}

/// The acceptors, the coordinators, the learners and the eight proposers, each in the order of
/// their numbers. `NoMemory` if memory runs out.
pub fn all_nodes(alloc: Global, config: Config) -> Result<Vec<Node>, NoMemory>
    ensures { IfOk result (λ nodes. nodes.items ≡ all_nodes config) }
{
    let mut nodes = Vec::new(alloc);
    push_first(&mut nodes, Role::Acceptor, config.acceptors())?;
    push_first(&mut nodes, Role::Coordinator, config.coordinators())?;
    push_first(&mut nodes, Role::Learner, config.learners())?;
    push_first(&mut nodes, Role::Proposer, PROPOSERS)?;
    Ok(nodes)
}
