//! Audits of runs, whose certificates are compared with the votes that are counted.
use crate::counted_votes::all_counted;
use crate::many_runs::{config_of, script_with};
use crate::stage::{Finished, served, whole_run};
use gp_msg::{Event, Record};
use gp_round::Config;
use gp_sim::simulate;
use gp_world::World;
use std::alloc::Global;
use std::ops::Range;
use std::sync::Wait;
use std::test::Fail;
use std::thread::Threads;

const RUNS: u64 = 100;

const OFFERS: usize = 8;

// More records than the runs here make.
const MANY: usize = 100_000;

// The world after the events of these records, or `None` if one is refused.
fn world_of(alloc: Global, config: Config, records: &[Record]) -> Result<Option<World>, Fail> {
    let mut world = World::new(alloc, config)?;
    let is_legal = steps_all(&mut world, records)?;
    Ok(is_legal.then_some(world))
}

// Whether no event of these records is refused.
fn steps_all(world: &mut World, records: &[Record]) -> Result<bool, Fail> {
    for record in records {
        if world.records().len() >= MANY || world.step(record.event.copy()?).is_err() {
            return Ok(false);
        }
    }
    Ok(true)
}

/// Whether an audit upholds what a run of nodes printed, and each of its certificates counts.
pub fn is_audited<W: Threads + Wait + Sync>(
    rt: &W,
    alloc: Global,
    config: Config,
    run: &Finished,
) -> Result<bool, Fail> {
    match world_of(alloc, config, run.ran.trail.records())? {
        Some(world) => Ok(is_legal(rt, alloc, run.sink.written())? && all_counted(alloc, &world)?),
        None => Ok(false),
    }
}

// Whether an audit upholds this.
fn is_legal<W: Threads + Wait + Sync>(rt: &W, alloc: Global, text: &[u8]) -> Result<bool, Fail> {
    let audit = served(rt, alloc, &["audit"], text)?;
    Ok(audit.status == 0 && audit.text.starts_with(b"legal\n"))
}

// How many nodes crashed.
fn falls(records: &[Record]) -> usize {
    let mut count = 0usize;
    for record in records {
        if let Event::Fall { .. } = &record.event {
            count = count.saturating_add(1);
        }
    }
    count
}

// The run of a seed, in which a call of the disk of an acceptor or of coordinator 0 fails after
// those that make its log.
fn fallen_run<W: Threads + Wait + Sync>(
    rt: &W,
    alloc: Global,
    seed: usize,
) -> Result<Finished, Fail> {
    let number = if seed % 4 == 3 { 7 } else { seed as u64 % 4 };
    let call = 3 + seed as u64 % 7;
    let script = script_with(alloc, seed, OFFERS)?;
    whole_run(rt, alloc, &["run"], &script, (number, &[call]))
}

// How many nodes crashed in the runs of these seeds, or `None` if one of the runs was not upheld.
fn falls_in_runs<W: Threads + Wait + Sync>(
    rt: &W,
    alloc: Global,
    seeds: Range<usize>,
) -> Result<Option<usize>, Fail> {
    let mut fallen = 0usize;
    for seed in seeds {
        let Some(falls) = falls_if_upheld(rt, alloc, seed, &fallen_run(rt, alloc, seed)?)? else {
            return Ok(None);
        };
        fallen = fallen.saturating_add(falls);
    }
    Ok(Some(fallen))
}

fn falls_if_upheld<W: Threads + Wait + Sync>(
    rt: &W,
    alloc: Global,
    seed: usize,
    run: &Finished,
) -> Result<Option<usize>, Fail> {
    let is_upheld = run.ran.status == 0 && is_audited(rt, alloc, config_of(seed)?, run)?;
    Ok(is_upheld.then_some(falls(run.ran.trail.records())))
}

#[test]
fn fifty_runs_with_falls_and_checkpoints_are_upheld(rt: HostRuntime) -> Result<(), Fail> {
    let fallen = falls_in_runs(&rt, rt.alloc(), 0..50)?;
    assert!(rt; fallen.unwrap_or(0) > 25);
    Ok(())
}

#[test]
fn fifty_more_runs_with_falls_and_checkpoints_are_upheld(rt: HostRuntime) -> Result<(), Fail> {
    let fallen = falls_in_runs(&rt, rt.alloc(), 50..100)?;
    assert!(rt; fallen.unwrap_or(0) > 25);
    Ok(())
}

#[test]
fn simulated_runs_have_certificates_that_count(rt: HostRuntime) -> Result<(), Fail> {
    let alloc = rt.alloc();
    for seed in 0..RUNS {
        let world = simulate(&rt, alloc, seed, 40)?;
        assert!(rt; all_counted(alloc, &world)?);
    }
    Ok(())
}
