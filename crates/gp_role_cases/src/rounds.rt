//! Configurations, rounds and quorums.
use crate::commands::ordered;
use gp_cases::{Fault, Request, Subject, Words, config_of, yes_or_no};
use gp_round::{Config, Mode, Subsets, Which, count_members, is_member};
use std::alloc::Global;
use std::sync::Wait;
use std::thread::Threads;

/// Rounds have no state.
#[derive(Drop)]
pub struct Rounds;

impl Subject for Rounds {
    fn answer<W: Threads + Wait + Sync>(
        &mut self,
        _threads: &W,
        alloc: Global,
        request: Request<'_>,
    ) -> Result<String, Fault> {
        let mut words = request.words();
        match words.name()? {
            "config" => config(alloc, words),
            "owns" => owns(alloc, words),
            "order" => order(alloc, words),
            "subsets" => subsets(alloc, words),
            "members" => members(alloc, words),
            _ => Err(Fault::Unread),
        }
    }
}

// Whether a coordinator owns a round, by the words `cN ROUND of A C L`.
fn owns(alloc: Global, mut words: Words<'_>) -> Result<String, Fault> {
    let coordinator = words.next_node(b'c')?;
    let round = words.next_round()?;
    words.pass(b"of")?;
    yes_or_no(alloc, config_of(words)?.owns(coordinator, round))
}

// How two rounds are ordered.
fn order(alloc: Global, mut words: Words<'_>) -> Result<String, Fault> {
    let a = words.next_round()?;
    let b = words.next_round()?;
    words.end()?;
    Ok(String::from_str(alloc, ordered(&a, &b))?)
}

fn config(alloc: Global, mut words: Words<'_>) -> Result<String, Fault> {
    let acceptors = words.next_number()?;
    let coordinators = words.next_number()?;
    let learners = words.next_number()?;
    words.end()?;
    match Config::new(acceptors, coordinators, learners) {
        Ok(config) => quorums(alloc, &config),
        Err(refused) => {
            let which = match refused.which {
                Which::Acceptors => "acceptors",
                Which::Coordinators => "coordinators",
                Which::Learners => "learners",
            };
            let given = refused.given;
            Ok(format!(in alloc; "refused: {given} {which}")?)
        }
    }
}

// The numbers of nodes, the quorum of phase 1, and the quorums of acceptors and of coordinators in
// single, multi and fast rounds.
fn quorums(alloc: Global, config: &Config) -> Result<String, Fault> {
    let (a, c, l) = (config.acceptors(), config.coordinators(), config.learners());
    let first = config.first_quorum();
    let (single, multi, fast) = (
        config.quorum(Mode::Single),
        config.quorum(Mode::Multi),
        config.quorum(Mode::Fast),
    );
    let (lead, many, one) = (
        config.coordinator_quorum(Mode::Single),
        config.coordinator_quorum(Mode::Multi),
        config.coordinator_quorum(Mode::Fast),
    );
    Ok(format!(in alloc;
        "{a} {c} {l}: first {first}, acceptors {single} {multi} {fast}, coordinators {lead} {many} {one}"
    )?)
}

// The subsets as masks.
fn subsets(alloc: Global, mut words: Words<'_>) -> Result<String, Fault> {
    let n = words.next_number()?;
    let size = words.next_number()?;
    words.end()?;
    if n > 7 || size > n {
        return Err(Fault::Unread);
    }
    let mut text = String::new(alloc);
    for mask in Subsets::new(n, size) {
        let gap = if text.is_empty() { "" } else { " " };
        text.push_str(format!(in alloc; "{gap}{mask}")?.as_str())?;
    }
    Ok(text)
}

// How many numbers below n are in the set of a mask, and which.
fn members(alloc: Global, mut words: Words<'_>) -> Result<String, Fault> {
    let mask = words.next_byte()?;
    words.pass(b"of")?;
    let n = words.next_number()?;
    words.end()?;
    if n > 8 {
        return Err(Fault::Unread);
    }
    let count = count_members(mask, n);
    let mut text = format!(in alloc; "{count}:")?;
    for i in 0..n {
        if is_member(mask, i) {
            text.push_str(format!(in alloc; " {i}")?.as_str())?;
        }
    }
    Ok(text)
}
