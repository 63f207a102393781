//! Runs of nodes of several configurations, each of which `play` repeats from its trace.
use crate::audited_runs::is_audited;
use crate::nodes::{parts_of, plays_again};
use crate::stage::{CALM, Finished, whole_run};
use gp_round::Config;
use std::alloc::Global;
use std::sync::Wait;
use std::test::Fail;
use std::thread::Threads;

// What is offered: commands that conflict, others that commute, and a checkpoint.
static OPERATIONS: [&[u8]; 13] = [
    b"put a 1",
    b"add a 2",
    b"get a",
    b"put b 3",
    b"add c 4",
    b"del a",
    b"cas a 1 5",
    b"copy a b",
    b"add d 1",
    b"add d 2",
    b"checkpoint",
    b"get e",
    b"put f 6",
];

const PROPOSERS: usize = 8;

const OFFERS: usize = 64;

// Acceptors, coordinators and learners.
static COUNTS: [(u32, u32, u32); 5] = [(3, 1, 1), (4, 2, 3), (5, 3, 2), (6, 4, 1), (7, 5, 4)];

/// The configuration of the runs of a seed.
pub fn config_of(seed: usize) -> Result<Config, Fail> {
    let (acceptors, coordinators, learners) = COUNTS[seed % COUNTS.len()];
    Ok(Config::new(acceptors, coordinators, learners)?)
}

/// A script of this many offers by eight proposers. Another seed has another configuration, and
/// takes other operations.
pub fn script_with(alloc: Global, seed: usize, offers: usize) -> Result<Vec<u8>, Fail> {
    let mut script = nodes_line(alloc, seed)?;
    push_offers(&mut script, seed, offers)?;
    Ok(script)
}

fn nodes_line(alloc: Global, seed: usize) -> Result<Vec<u8>, Fail> {
    let (acceptors, coordinators, learners) = COUNTS[seed % COUNTS.len()];
    let nodes = format!(in alloc; "nodes {acceptors} {coordinators} {learners}\n")?;
    Ok(Vec::from_slice(alloc, nodes.as_bytes())?)
}

fn push_offers(script: &mut Vec<u8>, seed: usize, offers: usize) -> Result<(), Fail> {
    for number in 0..offers {
        push_offer(script, seed, number)?;
    }
    Ok(())
}

fn push_offer(script: &mut Vec<u8>, seed: usize, number: usize) -> Result<(), Fail> {
    script.extend_from_slice(b"offer p")?;
    script.push(b'0' + (number % PROPOSERS) as u8)?;
    script.push(b' ')?;
    let at = number.wrapping_mul(seed % 12 + 1).wrapping_add(seed) % OPERATIONS.len();
    script.extend_from_slice(OPERATIONS[at])?;
    script.push(b'\n')?;
    Ok(())
}

// Whether a run ends with all learned, `play` prints its report from its trace, and an audit upholds it.
fn is_played_again<W: Threads + Wait + Sync>(
    rt: &W,
    alloc: Global,
    seed: usize,
) -> Result<bool, Fail> {
    let config = config_of(seed)?;
    let run = run_of(rt, alloc, seed)?;
    is_upheld_and_played(rt, alloc, config, &run)
}

fn is_upheld_and_played<W: Threads + Wait + Sync>(
    rt: &W,
    alloc: Global,
    config: Config,
    run: &Finished,
) -> Result<bool, Fail> {
    let is_over = run.ran.status == 0 && is_audited(rt, alloc, config, run)?;
    Ok(is_over && is_same(rt, alloc, run.sink.written())?)
}

fn run_of<W: Threads + Wait + Sync>(rt: &W, alloc: Global, seed: usize) -> Result<Finished, Fail> {
    let script = script_with(alloc, seed, OFFERS)?;
    whole_run(rt, alloc, &["run"], &script, CALM)
}

fn is_same<W: Threads + Wait + Sync>(rt: &W, alloc: Global, text: &[u8]) -> Result<bool, Fail> {
    plays_again(rt, alloc, &parts_of(alloc, text)?)
}

#[test]
fn each_run_is_played_again(rt: HostRuntime) -> Result<(), Fail> {
    let alloc = rt.alloc();
    for seed in 0..COUNTS.len() {
        assert!(rt; is_played_again(&rt, alloc, seed)?);
    }
    Ok(())
}
