//! The events of workloads.
use gp_cases::{Fault, Request, Subject, Words, event_text, number_64, push_line};
use gp_msg::{Event, Node};
use gp_random::{MOST_COMMANDS, Workload};
use gp_round::Mode;
use std::alloc::Global;
use std::sync::Wait;
use std::thread::Threads;

// More than the events of any workload.
const MANY: u64 = 4096;

/// Workloads have no state.
#[derive(Drop)]
pub struct Workloads;

impl Subject for Workloads {
    fn answer<W: Threads + Wait + Sync>(
        &mut self,
        _threads: &W,
        alloc: Global,
        request: Request<'_>,
    ) -> Result<String, Fault> {
        let mut words = request.words();
        match words.name()? {
            "events" => events(alloc, words),
            "sum" => sum(alloc, words),
            "sum-of-sizes" => {
                let sum = sum_of_sizes(alloc, number_64(words.rest()?)?)?;
                Ok(format!(in alloc; "sum {sum}")?)
            }
            _ => Err(Fault::Unread),
        }
    }
}

// The workload of the words `SEED COMMANDS`.
fn workload_of(alloc: Global, mut words: Words<'_>) -> Result<Workload, Fault> {
    let seed = words.next_number_64()?;
    let commands = words.next_number()?;
    words.end()?;
    workload(alloc, seed, commands)
}

fn sum(alloc: Global, words: Words<'_>) -> Result<String, Fault> {
    let (count, sum) = sum_of(workload_of(alloc, words)?)?;
    Ok(format!(in alloc; "{count} events, sum {sum}")?)
}

fn workload(alloc: Global, seed: u64, commands: u32) -> Result<Workload, Fault> {
    if commands == 0 || commands > MOST_COMMANDS {
        return Err(Fault::Unread);
    }
    Ok(Workload::new(alloc, seed, commands)?)
}

// All events, one a line. After the end it is asked once more.
fn events(alloc: Global, words: Words<'_>) -> Result<String, Fault> {
    let mut workload = workload_of(alloc, words)?;
    let mut text = String::new(alloc);
    for have in 0..MANY {
        match workload.next(have)? {
            Some(event) => push_line(event_text(alloc, &event)?.as_str(), &mut text)?,
            None => {
                push_after(alloc, &mut workload, have, &mut text)?;
                break;
            }
        }
    }
    Ok(text)
}

// Appends what comes after the end: no event.
fn push_after(
    alloc: Global,
    workload: &mut Workload,
    have: u64,
    text: &mut String,
) -> Result<(), Fault> {
    match workload.next(have)? {
        Some(event) => push_line(event_text(alloc, &event)?.as_str(), text),
        None => Ok(()),
    }
}

// The number of events of a workload and their checksum.
fn sum_of(mut workload: Workload) -> Result<(u64, u64), Fault> {
    let mut sum = 0;
    for have in 0..MANY {
        match workload.next(have)? {
            Some(event) => sum = mix_event(sum, &event),
            None => return Ok((have, sum)),
        }
    }
    Ok((MANY, sum))
}

// The checksum over the sums of the workloads of a seed with 1 to 256 commands.
fn sum_of_sizes(alloc: Global, seed: u64) -> Result<u64, Fault> {
    let mut sum = 0;
    for commands in 1..=MOST_COMMANDS {
        let (events, part) = sum_of(workload(alloc, seed, commands)?)?;
        sum = mix(mix(sum, events), part);
    }
    Ok(sum)
}

// One more part of a checksum (Fowler, Noll, Vo).
fn mix(sum: u64, part: u64) -> u64 {
    (sum ^ part).wrapping_mul(1099511628211)
}

fn mix_bytes(sum: u64, bytes: &[u8]) -> u64 {
    let mut mixed = sum;
    for byte in bytes {
        mixed = mix(mixed, u64::from(*byte));
    }
    mixed
}

fn mix_node(sum: u64, node: Node) -> u64 {
    match node {
        Node::Proposer(number) => mix(mix(sum, 0), u64::from(number)),
        Node::Coordinator(number) => mix(mix(sum, 1), u64::from(number)),
        Node::Acceptor(number) => mix(mix(sum, 2), u64::from(number)),
        Node::Learner(number) => mix(mix(sum, 3), u64::from(number)),
    }
}

fn mix_mode(sum: u64, mode: Mode) -> u64 {
    match mode {
        Mode::Single => mix(sum, 0),
        Mode::Multi => mix(sum, 1),
        Mode::Fast => mix(sum, 2),
    }
}

fn mix_event(sum: u64, event: &Event) -> u64 {
    match event {
        Event::Offer { proposer, draft } => {
            mix_bytes(mix(mix(sum, 1), u64::from(*proposer)), draft.body())
        }
        Event::Begin { coordinator, round } => {
            let begun = mix(mix(sum, 2), u64::from(*coordinator));
            let counted = mix(begun, u64::from(round.count));
            mix(mix_mode(counted, round.mode), u64::from(round.lead))
        }
        Event::Take { node, message } => mix(mix_node(mix(sum, 3), *node), *message),
        Event::Fall { node, kept } => {
            let fallen = mix_node(mix(sum, 4), *node);
            if kept.is_none() {
                fallen
            } else {
                mix(fallen, 1)
            }
        }
    }
}
