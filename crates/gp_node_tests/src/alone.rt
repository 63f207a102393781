//! One node at a wire of its own, with a log on a disk in memory.
ghost use Rattle.std.specs.Prelude.{◌≡◌, [], ◌∷◌, true, None, IfOk};
ghost use Rattle.gp_msg.specs.Nodes.{is_present};
ghost use Rattle.gp_wire.specs.Known.{records};
ghost use Rattle.gp_cell.specs.Cores.{opening, part_in};
ghost use Rattle.gp_cell.specs.Cells.{IsFreshLog};
ghost use Rattle.gp_node_tests.specs.Alone.{IsAlone, IsNew};

use gp_command::NoMemory;
use gp_edge::MemDisk;
use gp_msg::Node;
use gp_node::{Cell, PaxosRules};
use gp_round::Config;
use gp_vlog::Log;
use gp_wire::{Pass, Wire};
use std::alloc::Global;

/// A wire with one node, and the cell of the node.
#[derive(Drop)]
pub struct Alone {
    pub wire: Wire<PaxosRules>,
    pub cell: Cell<MemDisk>,
}

impl Alone {
    /// Ends the node. A test calls this at its end, since each place that drops a node is long to prove.
    pub fn end(self) {}
}

// A log for a node of a role that has one. The calls of its disk whose numbers are in `failing` fail.
fn log_for(
    alloc: Global,
    config: Config,
    node: Node,
    failing: &[u64],
) -> Result<Option<Log<MemDisk>>, NoMemory>
    ensures { IfOk result (λ log. IsFreshLog (part_in (opening config node)) log) }
{
    let _config = config;
    match node {
        Node::Proposer(_) | Node::Learner(_) => Ok(None),
        Node::Coordinator(_) => Ok(Some(created(alloc, failing)?)),
        Node::Acceptor(_) => Ok(Some(created(alloc, failing)?)),
    }
}

fn created(alloc: Global, failing: &[u64]) -> Result<Log<MemDisk>, NoMemory>
    ensures { IfOk result (λ log. (log.ready ≡ true) × (log.entries ≡ [])) }
{
    let disk = MemDisk::new(alloc, b"", failing)?;
    match Log::create(alloc, disk, 1_048_576) {
        Ok(log) => Ok(log),
        Err(_) => Err(NoMemory),
    }
}

// A wire with one node, and the pass of that node.
fn wire_of(alloc: Global, config: Config, node: Node) -> Result<(Wire<PaxosRules>, Pass), NoMemory>
    ensures rules { IfOk result (λ w. (w.0.rules.config ≡ config) × (w.0.nodes ≡ node ∷ [])) }
    ensures pass { IfOk result (λ w. IsNew w.0.id node w.1) }
{
    let nodes = [node];
    let (wire, mut passes) = Wire::new(alloc, PaxosRules { config }, &nodes)?;
    match passes.pop() {
        Some(pass) => Ok((wire, pass)),
        None => Err(NoMemory),
    }
}

/// A node at a wire of its own.
pub fn make_alone(
    alloc: Global,
    config: Config,
    node: Node,
    failing: &[u64],
) -> Result<Alone, NoMemory>
    requires { is_present config node ≡ true }
    ensures { IfOk result (λ a. IsAlone config node a.wire a.cell) }
{
    let (wire, pass) = wire_of(alloc, config, node)?;
    let log = log_for(alloc, config, node, failing)?;
    match Cell::new(alloc, config, node, log, pass) {
        Ok(cell) => Ok(Alone { wire, cell }),
        Err(_) => Err(NoMemory),
    }
}
