//! The steps of a coordinator.
ghost use Rattle.std.specs.Prelude.{◌≡◌, true};
ghost use Rattle.gp_round.specs.Configs.{is_owner};

use crate::acceptors::closed_by;
use gp_cases::{
    Fault, Letters, Request, Subject, Words, config_words, durable_of, durable_text, message_of,
    messages_text, push_line,
};
use gp_coordinator::Coordinator;
use gp_msg::Durable;
use gp_round::{Config, Round};
use std::alloc::Global;
use std::sync::Wait;
use std::thread::Threads;

/// A file has one coordinator at a time.
#[derive(Drop)]
pub struct Coordinators {
    coordinator: Option<Coordinator>,
}

impl Coordinators {
    pub fn new() -> Coordinators {
        Coordinators { coordinator: None }
    }
}

impl Subject for Coordinators {
    fn answer<W: Threads + Wait + Sync>(
        &mut self,
        _threads: &W,
        alloc: Global,
        request: Request<'_>,
    ) -> Result<String, Fault> {
        let mut words = request.words();
        let name = words.name()?;
        if name == "coordinator" {
            let (coordinator, text) = opened(alloc, request, words)?;
            self.coordinator = Some(coordinator);
            return Ok(text);
        }
        match &mut self.coordinator {
            Some(coordinator) => step(alloc, request, coordinator, name, words),
            None => Err(Fault::Unread),
        }
    }
}

// The coordinator of the words `cN of A C L`, and its state, or of the words
// `cN of A C L epoch E begins ROUND`, and what it sends; after `twice` it begins the round twice.
fn opened(
    alloc: Global,
    request: Request<'_>,
    mut words: Words<'_>,
) -> Result<(Coordinator, String), Fault> {
    let number = words.next_node(b'c')?;
    words.pass(b"of")?;
    let config = config_words(&mut words)?;
    if words.has_more() {
        return begun(alloc, request.letters, &config, number, words);
    }
    let coordinator = Coordinator::new(alloc, &config, number)?;
    let text = state(alloc, request.letters, &coordinator)?;
    Ok((coordinator, text))
}

fn begun(
    alloc: Global,
    letters: &Letters,
    config: &Config,
    number: u32,
    mut words: Words<'_>,
) -> Result<(Coordinator, String), Fault> {
    let epoch = words.number(b"epoch")?;
    let round = words.round(b"begins")?;
    let is_twice = words.flag(b"twice")?;
    if !config.owns(number, round) {
        return Err(Fault::Unread);
    }
    let mut coordinator = Coordinator::new(alloc, config, number)?;
    coordinator.fall(Durable::Coordinator {
        epoch,
        round: Round::zero(),
    });
    let text = begins(alloc, letters, &mut coordinator, round, is_twice)?;
    Ok((coordinator, text))
}

fn begins(
    alloc: Global,
    letters: &Letters,
    coordinator: &mut Coordinator,
    round: Round,
    is_twice: bool,
) -> Result<String, Fault>
    requires { is_owner coordinator.old.state.config.coordinators coordinator.old.state.number round ≡ true }
{
    let sent = coordinator.begin(round)?;
    let mut text = messages_text(alloc, letters, sent.as_slice())?;
    if is_twice {
        let again = coordinator.begin(round)?;
        push_line(
            messages_text(alloc, letters, again.as_slice())?.as_str(),
            &mut text,
        )?;
    }
    Ok(text)
}

// What a step gives: what is sent for a message, or the state.
fn step(
    alloc: Global,
    request: Request<'_>,
    coordinator: &mut Coordinator,
    name: &str,
    words: Words<'_>,
) -> Result<String, Fault> {
    match name {
        "take" => return take(alloc, request, coordinator, words),
        "fall" => fall(alloc, request, coordinator, words)?,
        "copy" => *coordinator = coordinator.copy()?,
        "state" => words.end()?,
        _ => return Err(Fault::Unread),
    }
    state(alloc, request.letters, coordinator)
}

// Crashes, and restarts from the state of the words, or from its own if there are none.
fn fall(
    alloc: Global,
    request: Request<'_>,
    coordinator: &mut Coordinator,
    words: Words<'_>,
) -> Result<(), Fault> {
    let durable = if words.has_more() {
        durable_of(alloc, request.letters, words)?
    } else {
        coordinator.durable()
    };
    coordinator.fall(durable);
    Ok(())
}

fn take(
    alloc: Global,
    request: Request<'_>,
    coordinator: &mut Coordinator,
    words: Words<'_>,
) -> Result<String, Fault> {
    let m = message_of(alloc, request.letters, words)?;
    if closed_by(&m) == u32::MAX {
        return Err(Fault::Unread);
    }
    messages_text(alloc, request.letters, coordinator.take(&m)?.as_slice())
}

// What survives a crash, and also what the coordinator shows if that is something else.
fn state(alloc: Global, letters: &Letters, coordinator: &Coordinator) -> Result<String, Fault> {
    let mut text = durable_text(alloc, letters, &coordinator.durable())?;
    let shown = Durable::Coordinator {
        epoch: coordinator.epoch(),
        round: coordinator.round(),
    };
    let shown = durable_text(alloc, letters, &shown)?;
    if shown != text {
        push_line(shown.as_str(), &mut text)?;
    }
    Ok(text)
}
