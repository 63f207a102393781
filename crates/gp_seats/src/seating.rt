//! All nodes of a configuration at a wire.
ghost use Rattle.std.specs.Prelude.{◌≡◌, ◌≤◌, ◌+◌, ◌++◌, [], map, length, IfOk, IfErr, OnOk};
ghost use Rattle.std.specs.List.{All};
ghost use Rattle.gp_seats.specs.Nodes.{all_nodes, working_nodes, proposer_nodes};
ghost use Rattle.gp_seats.specs.Offering.{node_in};
ghost use Rattle.gp_seats.specs.Seats.{IsBlank, IsNewJob, new_passes, seats};

use crate::nodes::all_nodes;
use crate::seats::make_jobs;
use gp_command::{NoMemory, PROPOSERS};
use gp_edge::Disk;
use gp_node::{Job, PaxosRules};
use gp_round::Config;
use gp_vlog::Log;
use gp_wire::{Pass, Wire};
use std::alloc::Global;

/// A new wire, and the jobs of its nodes. The jobs of the proposers are in a list of their own.
#[derive(Drop)]
pub struct Seated<D: Disk> {
    pub wire: Wire<PaxosRules>,
    pub jobs: Vec<Job<D>>,
    pub proposers: Vec<Job<D>>,
}

/// Memory ran out. The logs are returned in their order.
#[derive(Drop)]
pub struct Unseated<D: Disk> {
    pub logs: Vec<Log<D>>,
}

// Keeps the first `count` passes, and returns the others.
fn split_behind(alloc: Global, passes: &mut Vec<Pass>, count: usize) -> Result<Vec<Pass>, NoMemory>
    requires { count ≤ length passes.old.items }
    ensures split { IfOk result (λ last. passes.old.items ≡ passes.new.items ++ last.items) }
    ensures first { OnOk result (length passes.new.items ≡ count) }
{
    let mut last = Vec::new(alloc);
    while passes.len() > count {
        if let Some(pass) = passes.pop() {
            last.push(pass)?;
        }
    }
    last.reverse();
    Ok(last)
}

// A new wire, the passes of all its nodes except the proposers, and the jobs of the proposers.
fn open<D: Disk>(
    alloc: Global,
    config: Config,
) -> Result<(Wire<PaxosRules>, Vec<Pass>, Vec<Job<D>>), NoMemory>
    ensures wire { IfOk result (λ o. (o.0.rules.config ≡ config) × (o.0.nodes ≡ all_nodes config)) }
    ensures passes { IfOk result (λ o. o.1.items ≡ new_passes o.0 (working_nodes config)) }
    ensures proposers { IfOk result (λ o. o.2.items ≡ seats config (new_passes o.0 proposer_nodes) []) }
{
    let nodes = all_nodes(alloc, config)?;
    let (wire, mut passes) = Wire::new(alloc, PaxosRules { config }, &nodes)?;
    let count = passes.len() - PROPOSERS as usize;
    let last = split_behind(alloc, &mut passes, count)?;
    match make_jobs(alloc, config, last, Vec::new(alloc)) {
        Ok(proposers) => Ok((wire, passes, proposers)),
        Err(_) => Err(NoMemory),
    }
}

/// A wire with all nodes of a configuration, and their jobs, which have no moves to make: `jobs`
/// are those of the acceptors, then of the coordinators, then of the learners, and `proposers` are
/// those of the eight proposers. The given logs are ready and have no entries; they are those of
/// the acceptors and then of the coordinators. If memory runs out, they are returned.
pub fn seat_all<D: Disk>(
    alloc: Global,
    config: Config,
    logs: Vec<Log<D>>,
) -> Result<Seated<D>, Unseated<D>>
    requires count { length logs.items ≡ config.acceptors + config.coordinators }
    requires blank { All IsBlank logs.items }
    ensures rules { IfOk result (λ s. s.wire.rules.config ≡ config) }
    ensures nodes { IfOk result (λ s. s.wire.nodes ≡ all_nodes config) }
    ensures jobs { IfOk result (λ s. s.jobs.items ≡ seats config (new_passes s.wire (working_nodes config)) logs.items) }
    ensures proposers { IfOk result (λ s. s.proposers.items ≡ seats config (new_passes s.wire proposer_nodes) []) }
    ensures order { IfOk result (λ s. map node_in s.proposers.items ≡ proposer_nodes) }
    ensures new { IfOk result (λ s. All (IsNewJob D.faults s.wire config) s.jobs.items) }
    ensures new_too { IfOk result (λ s. All (IsNewJob D.faults s.wire config) s.proposers.items) }
    ensures back { IfErr result (λ u. u.logs.items ≡ logs.items) }
{
    match open(alloc, config) {
        Err(NoMemory) => Err(Unseated { logs }),
        Ok((wire, passes, proposers)) => match make_jobs(alloc, config, passes, logs) {
            Ok(jobs) => Ok(Seated {
                wire,
                jobs,
                proposers,
            }),
            Err(logs) => Err(Unseated { logs }),
        },
    }
}
