//! The messages of a script, with the identities of their commands.
use gp_cases::{Fault, number_64, round_text};
use gp_index::History;
use gp_msg::Msg;
use gp_report::identities;
use gp_round::Round;
use gp_world::World;
use std::alloc::Global;

/// All messages of a world, one a line.
pub fn all_messages(alloc: Global, world: &World) -> Result<Vec<u8>, Fault> {
    let mut text = Vec::new(alloc);
    for number in 0..world.messages() {
        push_message(alloc, world, number, &mut text)?;
    }
    Ok(text)
}

/// The messages with these numbers.
pub fn messages_at(alloc: Global, world: &World, numbers: &[u8]) -> Result<Vec<u8>, Fault> {
    let mut text = Vec::new(alloc);
    for word in numbers.split(|byte| *byte == b' ') {
        push_message(alloc, world, number_64(word)?, &mut text)?;
    }
    Ok(text)
}

fn push_message(alloc: Global, world: &World, number: u64, to: &mut Vec<u8>) -> Result<(), Fault> {
    let Some(message) = world.message(number) else {
        return Err(Fault::Unread);
    };
    let line = message_text(alloc, message)?;
    to.extend_from_slice(format!(in alloc; "{number} {line}\n")?.as_bytes())?;
    Ok(())
}

// A message as in the files of cases on nodes, with identities in place of letters.
fn message_text(alloc: Global, message: &Msg) -> Result<String, Fault> {
    Ok(match message {
        Msg::Propose { command } => {
            let id = command.id();
            format!(in alloc; "propose p{}.{}", id.proposer, id.number)?
        }
        Msg::P1a { epoch, round } => head_of(alloc, "p1a", *epoch, *round)?,
        Msg::P1b {
            epoch,
            round,
            acceptor,
            voted,
            vote,
        } => {
            let head = head_of(alloc, "p1b", *epoch, *round)?;
            let voted = round_text(alloc, *voted)?;
            let vote = ids_of(alloc, vote)?;
            format!(in alloc; "{head} from a{acceptor} voted {voted} vote {vote}")?
        }
        _ => return value_text(alloc, message),
    })
}

// The same of a message with a value, or with the vote of a round.
fn value_text(alloc: Global, message: &Msg) -> Result<String, Fault> {
    Ok(match message {
        Msg::P2a {
            epoch,
            round,
            coordinator,
            value,
        } => {
            let head = head_of(alloc, "p2a", *epoch, *round)?;
            let value = ids_of(alloc, value)?;
            format!(in alloc; "{head} from c{coordinator} value {value}")?
        }
        Msg::P2b {
            epoch,
            round,
            acceptor,
            vote,
        } => {
            let head = head_of(alloc, "p2b", *epoch, *round)?;
            let vote = ids_of(alloc, vote)?;
            format!(in alloc; "{head} from a{acceptor} vote {vote}")?
        }
        Msg::Final {
            epoch,
            learner,
            value,
        } => {
            let value = ids_of(alloc, value)?;
            format!(in alloc; "final epoch {epoch} from l{learner} value {value}")?
        }
        _ => return Err(Fault::Unread),
    })
}

fn head_of(alloc: Global, kind: &str, epoch: u32, round: Round) -> Result<String, Fault> {
    let round = round_text(alloc, round)?;
    Ok(format!(in alloc; "{kind} epoch {epoch} round {round}")?)
}

fn ids_of(alloc: Global, history: &History) -> Result<String, Fault> {
    let mut text = Vec::new(alloc);
    identities(alloc, history, &mut text)?;
    Ok(String::from_utf8_lossy(alloc, &text)?)
}
