//! Worlds that are settled.
ghost use Rattle.std.specs.Prelude.{◌≤◌, OnOk};
ghost use Rattle.gp_round.specs.Ranges.{AreInRange};

use gp_cases::Fault;
use gp_driver::settle;
use gp_round::Config;
use gp_text::{Played, play, report};
use gp_world::World;
use std::alloc::Global;
use std::sync::Wait;

/// `settled`: how many events settle the run of a script of `play`, and its report then.
pub fn settled_text<W: Wait>(rt: &W, alloc: Global, script: &[u8]) -> Result<Vec<u8>, Fault> {
    let Ok(Played { mut world, text: _ }) = play(alloc, script) else {
        return Err(Fault::Unread);
    };
    let events = settled(rt, &mut world)?;
    let line = format!(in alloc; "{events} events\n")?;
    let mut text = Vec::from_slice(alloc, line.as_bytes())?;
    report(alloc, &world, &mut text)?;
    Ok(text)
}

// Settles a world, and returns how many events this took.
#[tactic(auto, using(crate::proofs::Settled::few_rounds, crate::proofs::Settled::few_settled))]
fn settled<W: Wait>(rt: &W, world: &mut World) -> Result<u64, Fault> {
    let _records = few(world.records().len() as u64)?;
    let _messages = few(world.messages())?;
    let _rounds = few(u64::from(world.top_count()))?;
    in_range(world.config());
    match settle(rt, world) {
        Ok(events) => Ok(events),
        Err(_) => Err(Fault::NoMemory),
    }
}

// The number, unless there are more records, messages or rounds than the cases need.
fn few(number: u64) -> Result<u64, Fault>
    ensures { OnOk result (number ≤ 100000) }
{
    if number > 100_000 {
        Err(Fault::Unread)
    } else {
        Ok(number)
    }
}

// The numbers of a configuration are in range.
fn in_range(config: &Config)
    ensures { AreInRange config.now.acceptors config.now.coordinators config.now.learners }
{
    let _counts = (config.acceptors(), config.coordinators(), config.learners());
}
