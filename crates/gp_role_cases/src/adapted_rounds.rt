//! Calls that ask for the next round, of a policy that answers no collision with a fast round, one
//! with a multi round, and more with a single round.
ghost use Rattle.std.specs.Prelude.{◌≡◌, ◌<◌, ◌≤◌};
ghost use Rattle.gp_adapt.specs.Choices.{mode_after};

use gp_adapt::{Adapt, ChooseMode, Scene};
use gp_cases::{Fault, Request, Subject, Words, config_words, push_line, round_text};
use gp_round::{Config, Mode, Round};
use std::alloc::Global;
use std::sync::Wait;
use std::thread::Threads;

/// Policies have no state: the calls of one are the input lines of its command.
#[derive(Drop)]
pub struct AdaptedRounds;

impl Subject for AdaptedRounds {
    // What the calls give, of the policy of the words `adapt cN of A C L calm N`, or, with `by-clashes`
    // after them, of one that is known to go by the number of collisions alone.
    fn answer<W: Threads + Wait + Sync>(
        &mut self,
        _threads: &W,
        alloc: Global,
        request: Request<'_>,
    ) -> Result<String, Fault> {
        let mut words = request.words();
        words.pass(b"adapt")?;
        let coordinator = words.next_node(b'c')?;
        words.pass(b"of")?;
        let config = config_words(&mut words)?;
        let calm = words.number(b"calm")?;
        let is_by_clashes = words.flag(b"by-clashes")?;
        if coordinator >= config.coordinators() || calm < 1 || calm > 1000 {
            return Err(Fault::Unread);
        }
        rounds(
            alloc,
            config,
            coordinator,
            calm,
            is_by_clashes,
            request.input,
        )
    }
}

// The rounds that begin after the calls.
fn rounds(
    alloc: Global,
    config: Config,
    coordinator: u32,
    calm: u32,
    is_by_clashes: bool,
    calls: &[u8],
) -> Result<String, Fault>
    requires known { coordinator < config.coordinators }
    requires some_calm { 1 ≤ calm }
    requires most_calm { calm ≤ 1000 }
{
    let choose: ChooseMode = Box::new(
        alloc,
        |scene: &Scene| -> Mode
            ensures { result ≡ mode_after scene.now.clashes }
        {
            match scene.clashes {
                0 => Mode::Fast,
                1 => Mode::Multi,
                _ => Mode::Single,
            }
        },
    )?;
    let mut adapt = if is_by_clashes {
        Adapt::new_by_clashes(config, coordinator, calm, choose)
    } else {
        Adapt::new(config, coordinator, calm, choose)
    };
    let mut text = String::new(alloc);
    for line in calls.split(|byte| *byte == b'\n') {
        match call_of(line)? {
            Call::Next { highest, clashed } => {
                push_round(alloc, adapt.next(highest, clashed), &mut text)?;
            }
            Call::Reset => adapt.reset(),
            Call::Nothing => {}
        }
    }
    Ok(text)
}

// What an input line calls.
#[derive(Clone, Copy)]
enum Call {
    Next { highest: Round, clashed: bool },
    Reset,
    Nothing,
}

// The call of `next ROUND calm`, of `next ROUND clash`, or of `reset`.
fn call_of(line: &[u8]) -> Result<Call, Fault> {
    if line.is_empty() {
        return Ok(Call::Nothing);
    }
    let mut words = Words::new(line);
    match words.name()? {
        "next" => next_of(words),
        "reset" => Ok(Call::Reset),
        _ => Err(Fault::Unread),
    }
}

fn next_of(mut words: Words<'_>) -> Result<Call, Fault> {
    let highest = words.next_round()?;
    let clashed = match words.name()? {
        "clash" => true,
        "calm" => false,
        _ => return Err(Fault::Unread),
    };
    words.end()?;
    Ok(Call::Next { highest, clashed })
}

fn push_round(alloc: Global, round: Option<Round>, text: &mut String) -> Result<(), Fault> {
    match round {
        Some(round) => push_line(round_text(alloc, round)?.as_str(), text),
        None => push_line("-", text),
    }
}
