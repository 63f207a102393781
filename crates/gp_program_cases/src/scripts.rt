//! Stages that read or play a script by the calls below the program.
use crate::messages::{all_messages, messages_at};
use gp_cases::{Fault, Words, number, number_64};
use gp_collide::Watch;
use gp_command::Draft;
use gp_report::summary;
use gp_text::{Offers, play, read_offers, report, trace};
use gp_world::World;
use std::alloc::Global;

/// What a script gives: `offers` its configuration and its offers, `messages` its messages, or those
/// with these numbers, `printed` its trace, a line `--` and its report, `summary SEED COMMANDS` the
/// summary as that of a workload, `clash epoch E round R K ..` whether a watch over this round
/// notices a clash in these messages, and in all.
pub fn script_text(alloc: Global, mut words: Words<'_>, script: &[u8]) -> Result<Vec<u8>, Fault> {
    let word = words.next()?;
    if *word == *b"offers".as_slice() {
        words.end()?;
        return offers_text(alloc, script);
    }
    let Ok(played) = play(alloc, script) else {
        return Err(Fault::Unread);
    };
    match word {
        b"messages" if words.has_more() => messages_at(alloc, &played.world, words.rest()?),
        b"messages" => all_messages(alloc, &played.world),
        b"printed" => printed(alloc, &played.world),
        b"summary" => summed_up(alloc, &played.world, words),
        _ => clash_text(alloc, &played.world, words),
    }
}

fn offers_text(alloc: Global, script: &[u8]) -> Result<Vec<u8>, Fault> {
    let Ok(offers) = read_offers(alloc, script) else {
        return Err(Fault::Unread);
    };
    let Offers { config, list } = offers;
    let mut text = Vec::new(alloc);
    let nodes = format!(in alloc;
        "nodes {} {} {}\n",
        config.acceptors(),
        config.coordinators(),
        config.learners()
    )?;
    text.extend_from_slice(nodes.as_bytes())?;
    for (proposer, draft) in list.as_slice() {
        push_offer(alloc, *proposer, draft, &mut text)?;
    }
    Ok(text)
}

fn push_offer(alloc: Global, proposer: u32, draft: &Draft, to: &mut Vec<u8>) -> Result<(), Fault> {
    to.extend_from_slice(format!(in alloc; "p{proposer} ")?.as_bytes())?;
    to.extend_from_slice(draft.body())?;
    to.extend_from_slice(footprint(alloc, draft)?.as_bytes())?;
    Ok(to.push(b'\n')?)
}

/// How many keys a draft touches, and whether it closes its epoch.
pub fn footprint(alloc: Global, draft: &Draft) -> Result<String, Fault> {
    let count = draft.foot().len();
    let closes = if draft.is_checkpoint() { " closes" } else { "" };
    Ok(format!(in alloc; " touches {count}{closes}")?)
}

fn printed(alloc: Global, world: &World) -> Result<Vec<u8>, Fault> {
    let mut text = Vec::new(alloc);
    trace(alloc, world.config(), world.records(), &mut text)?;
    text.extend_from_slice(b"--\n")?;
    report(alloc, world, &mut text)?;
    Ok(text)
}

fn summed_up(alloc: Global, world: &World, mut words: Words<'_>) -> Result<Vec<u8>, Fault> {
    let seed = number_64(words.next()?)?;
    let commands = number(words.next()?)?;
    words.end()?;
    if world.config().learners() < 2 {
        return Err(Fault::Unread);
    }
    let mut text = Vec::new(alloc);
    summary(alloc, seed, commands, world, &mut text)?;
    Ok(text)
}

fn clash_text(alloc: Global, world: &World, mut words: Words<'_>) -> Result<Vec<u8>, Fault> {
    let epoch = words.number(b"epoch")?;
    let round = words.round(b"round")?;
    let mut some = Watch::new(alloc, epoch, round)?;
    for word in words.rest()?.split(|byte| *byte == b' ') {
        see(&mut some, world, number_64(word)?)?;
    }
    let mut all = Watch::new(alloc, epoch, round)?;
    for number in 0..world.messages() {
        see(&mut all, world, number)?;
    }
    let some = if some.clashed() { "clash" } else { "calm" };
    let all = if all.clashed() { "clash" } else { "calm" };
    let text = format!(in alloc; "{some}, in all {all}")?;
    Ok(Vec::from_slice(alloc, text.as_bytes())?)
}

fn see(watch: &mut Watch, world: &World, number: u64) -> Result<(), Fault> {
    match world.message(number) {
        Some(message) => Ok(watch.see(message)?),
        None => Err(Fault::Unread),
    }
}
