//! Jobs of nodes to which nothing has happened.
ghost use Rattle.std.specs.Prelude.{◌≡◌, ◌≤◌, ◌+◌, ◌++◌, length, reverse, vec_capacity, IfOk, IfErr};
ghost use Rattle.std.specs.Option.{option_to_list};
ghost use Rattle.gp_cell.specs.Cores.{opening, part_in};
ghost use Rattle.gp_cell.specs.Cells.{IsFreshLog, log_of};
ghost use Rattle.gp_seats.specs.Seats.{CanSit, IsUnused, first_log, logs_in, seat, seats};

use gp_edge::Disk;
use gp_msg::Node;
use gp_node::{Cell, Job, Moves};
use gp_round::Config;
use gp_vlog::Log;
use gp_wire::Pass;
use std::alloc::Global;

// The log of a node, if it keeps one. The logs are in the reverse order of their nodes.
fn next_log<D: Disk>(node: Node, logs: &mut Vec<Log<D>>) -> Option<Log<D>>
    ensures log { result ≡ first_log node (reverse logs.old.items) }
    ensures rest { logs.old.items ≡ logs.new.items ++ option_to_list result }
    ensures room { vec_capacity logs.new ≡ vec_capacity logs.old }
{
    match node {
        Node::Acceptor(_) | Node::Coordinator(_) => logs.pop(),
        Node::Learner(_) | Node::Proposer(_) => None,
    }
}

// A job of the node of a pass. If memory runs out, the log is returned.
fn make_job<D: Disk>(
    alloc: Global,
    config: Config,
    log: Option<Log<D>>,
    pass: Pass,
) -> Result<Job<D>, Option<Log<D>>>
    requires unused { IsUnused config pass }
    requires log { IsFreshLog (part_in (opening config pass.node)) log }
    ensures made { IfOk result (λ job. job ≡ seat config pass log) }
    ensures back { IfErr result (λ back. back ≡ log) }
{
    let node = pass.node();
    match Cell::new(alloc, config, node, log, pass) {
        Ok(cell) => Ok(Job {
            cell,
            first: Moves::new(alloc),
            cursor: 0,
            turn: 0,
            risen: false,
            fault: None,
        }),
        Err(unmade) => Err(unmade.log),
    }
}

// Appends a log, if there is one.
fn push_log<D: Disk>(logs: &mut Vec<Log<D>>, log: Option<Log<D>>)
    requires { length logs.old.items + length (option_to_list log) ≤ vec_capacity logs.old }
    ensures items { logs.new.items ≡ logs.old.items ++ option_to_list log }
    ensures room { vec_capacity logs.new ≡ vec_capacity logs.old }
{
    match log {
        Some(log) => logs.push_reserved(log),
        None => {}
    }
}

// The log of a job, if its node keeps one.
fn log_in<D: Disk>(job: Job<D>) -> Option<Log<D>>
    ensures { result ≡ log_of job.cell }
{
    let (pass, log) = job.cell.into_parts();
    drop(pass);
    log
}

// The logs of the jobs, followed by the given logs, which are in reverse order.
fn take_back<D: Disk>(jobs: Vec<Job<D>>, mut logs: Vec<Log<D>>) -> Vec<Log<D>>
    requires { length (logs_in jobs.items) + length logs.items ≤ vec_capacity logs }
    ensures { result.items ≡ logs_in jobs.items ++ reverse logs.items }
{
    let mut left = jobs;
    while let Some(job) = left.pop() {
        let log = log_in(job);
        push_log(&mut logs, log);
    }
    logs.reverse();
    logs
}

/// Jobs of the nodes of unused passes, in their order. The nodes that keep a log take the logs in
/// their order. If memory runs out, the logs are returned as they were.
pub fn make_jobs<D: Disk>(
    alloc: Global,
    config: Config,
    mut passes: Vec<Pass>,
    mut logs: Vec<Log<D>>,
) -> Result<Vec<Job<D>>, Vec<Log<D>>>
    requires { CanSit config passes.items logs.items }
    ensures made { IfOk result (λ jobs. jobs.items ≡ seats config passes.items logs.items) }
    ensures back { IfErr result (λ back. back.items ≡ logs.items) }
{
    let mut jobs = Vec::new(alloc);
    if jobs.reserve(passes.len()).is_err() {
        return Err(logs);
    }
    passes.reverse();
    logs.reverse();
    while let Some(pass) = passes.pop() {
        let log = next_log(pass.node(), &mut logs);
        match make_job(alloc, config, log, pass) {
            Ok(job) => jobs.push_reserved(job),
            Err(log) => {
                push_log(&mut logs, log);
                return Err(take_back(jobs, logs));
            }
        }
    }
    Ok(jobs)
}
