//! Nodes that run in threads, whose rounds adapt to collisions.
use crate::audited_runs::is_audited;
use crate::many_runs::{config_of, script_with};
use crate::nodes::{is_feed, parts_of};
use crate::outcome::holds;
use crate::stage::{CALM, Finished, whole_run};
use gp_round::Mode;
use std::alloc::Global;
use std::sync::Wait;
use std::test::Fail;
use std::thread::Threads;

const RUNS: usize = 50;

const CLASHING_RUNS: usize = 25;

// A seed whose configuration has five coordinators.
const FIVE_COORDINATORS: usize = 4;

const OFFERS: usize = 8;

// Eight puts, on keys of their own or all on one key.
fn puts(alloc: Global, seed: usize, conflicting: bool) -> Result<Vec<u8>, Fail> {
    let mut script = script_with(alloc, seed, 0)?;
    for number in 0..OFFERS {
        push_put(
            alloc,
            &mut script,
            number,
            if conflicting { 0 } else { number },
        )?;
    }
    Ok(script)
}

// Proposer `number` offers a put of its number.
fn push_put(alloc: Global, script: &mut Vec<u8>, number: usize, key: usize) -> Result<(), Fail> {
    let line = format!(in alloc; "offer p{number} put k{key} {number}\n")?;
    script.extend_from_slice(line.as_bytes())?;
    Ok(())
}

// How many multi, single and later fast rounds coordinator 0 began, if the first round was fast, a multi round followed a
// fast one, a single one followed a multi one, and a fast one followed another one.
fn course_of(trace: &[u8]) -> Option<(u32, u32, u32)> {
    let (mut multi, mut single, mut fast) = (0u32, 0u32, 0u32);
    let mut last = None;
    for line in trace.split(is_feed) {
        if line.starts_with(b"begin c0 ") {
            let mode = mode_of(line);
            if !may_follow(last, mode) {
                return None;
            }
            match mode {
                Mode::Multi => multi = multi.saturating_add(1),
                Mode::Single => single = single.saturating_add(1),
                Mode::Fast => fast = fast.saturating_add(1),
            }
            last = Some(mode);
        }
    }
    Some((multi, single, fast.saturating_sub(1)))
}

// The mode of the round that a line begins.
fn mode_of(line: &[u8]) -> Mode {
    if line.ends_with(b" multi") {
        Mode::Multi
    } else if line.ends_with(b" single") {
        Mode::Single
    } else {
        Mode::Fast
    }
}

// Whether a round of this mode follows one of that mode, or is the first.
fn may_follow(last: Option<Mode>, mode: Mode) -> bool {
    match (last, mode) {
        (Some(Mode::Fast), Mode::Multi) | (Some(Mode::Multi), Mode::Single) => true,
        (None | Some(Mode::Multi | Mode::Single), Mode::Fast) => true,
        _ => false,
    }
}

fn adapted<W: Threads + Wait + Sync>(
    rt: &W,
    alloc: Global,
    seed: usize,
    conflicting: bool,
) -> Result<Finished, Fail> {
    let script = puts(alloc, seed, conflicting)?;
    whole_run(rt, alloc, &["adapt"], &script, CALM)
}

// The course of the run of a seed, if it is upheld by an audit.
fn course_of_run<W: Threads + Wait + Sync>(
    rt: &W,
    alloc: Global,
    seed: usize,
    conflicting: bool,
) -> Result<Option<(u32, u32, u32)>, Fail> {
    let finished = adapted(rt, alloc, seed, conflicting)?;
    course_if_upheld(rt, alloc, seed, &finished)
}

fn course_if_upheld<W: Threads + Wait + Sync>(
    rt: &W,
    alloc: Global,
    seed: usize,
    finished: &Finished,
) -> Result<Option<(u32, u32, u32)>, Fail> {
    if finished.ran.status != 0 || !is_audited(rt, alloc, config_of(seed)?, finished)? {
        return Ok(None);
    }
    Ok(course_of(&parts_of(alloc, finished.sink.written())?.trace))
}

#[test]
fn where_nothing_conflicts_one_fast_round_is_begun(rt: HostRuntime) -> Result<(), Fail> {
    let alloc = rt.alloc();
    for seed in 0..RUNS {
        assert!(rt; course_of_run(&rt, alloc, seed, false)? == Some((0, 0, 0)));
    }
    Ok(())
}

#[test]
fn clashes_lead_to_a_multi_round_and_quiet_leads_back(rt: HostRuntime) -> Result<(), Fail> {
    let alloc = rt.alloc();
    for seed in 0..CLASHING_RUNS {
        match course_of_run(&rt, alloc, seed, true)? {
            Some((multi, _, fast)) => assert!(rt; multi > 0 && fast > 0),
            None => assert!(rt; false),
        }
    }
    Ok(())
}

// In each run the threads meet in another way, and often the proposals of the coordinators clash too.
#[test]
fn a_clash_in_a_multi_round_leads_to_a_single_one(rt: HostRuntime) -> Result<(), Fail> {
    holds(&rt, meets_a_clash(&rt, rt.alloc()))
}

// Whether one of many runs begins a single round, and no run before it is refused by the audit.
fn meets_a_clash<W: Threads + Wait + Sync>(rt: &W, alloc: Global) -> Result<bool, Fail> {
    for _ in 0..RUNS {
        match course_of_run(rt, alloc, FIVE_COORDINATORS, true)? {
            Some((_, 0, _)) => {}
            course => return Ok(course.is_some()),
        }
    }
    Ok(false)
}
