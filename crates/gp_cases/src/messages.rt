//! The spelling of messages and of what survives a crash.
use crate::fault::Fault;
use crate::letters::{Letters, push_line};
use crate::words::Words;
use gp_index::History;
use gp_msg::{Durable, Msg};
use gp_round::{Mode, Round};
use std::alloc::Global;

/// The message that the words spell.
pub fn message_of(alloc: Global, letters: &Letters, mut words: Words<'_>) -> Result<Msg, Fault> {
    match words.name()? {
        "propose" => proposal(letters, words),
        "p1a" => opening(words),
        "p1b" => answer(alloc, letters, words),
        "p2a" => request(alloc, letters, words),
        "p2b" => vote(alloc, letters, words),
        "final" => closing(alloc, letters, words),
        _ => Err(Fault::Unread),
    }
}

fn proposal(letters: &Letters, mut words: Words<'_>) -> Result<Msg, Fault> {
    match words.last()? {
        [letter] => Ok(Msg::Propose {
            command: letters.command(*letter)?,
        }),
        _ => Err(Fault::Unread),
    }
}

fn opening(mut words: Words<'_>) -> Result<Msg, Fault> {
    let epoch = words.number(b"epoch")?;
    let round = words.round(b"round")?;
    words.end()?;
    Ok(Msg::P1a { epoch, round })
}

fn answer(alloc: Global, letters: &Letters, mut words: Words<'_>) -> Result<Msg, Fault> {
    Ok(Msg::P1b {
        epoch: words.number(b"epoch")?,
        round: words.round(b"round")?,
        acceptor: words.sender(b'a')?,
        voted: words.round(b"voted")?,
        vote: last_history(alloc, letters, words, b"vote")?,
    })
}

fn request(alloc: Global, letters: &Letters, mut words: Words<'_>) -> Result<Msg, Fault> {
    Ok(Msg::P2a {
        epoch: words.number(b"epoch")?,
        round: words.round(b"round")?,
        coordinator: words.sender(b'c')?,
        value: last_history(alloc, letters, words, b"value")?,
    })
}

fn vote(alloc: Global, letters: &Letters, mut words: Words<'_>) -> Result<Msg, Fault> {
    Ok(Msg::P2b {
        epoch: words.number(b"epoch")?,
        round: words.round(b"round")?,
        acceptor: words.sender(b'a')?,
        vote: last_history(alloc, letters, words, b"vote")?,
    })
}

fn closing(alloc: Global, letters: &Letters, mut words: Words<'_>) -> Result<Msg, Fault> {
    Ok(Msg::Final {
        epoch: words.number(b"epoch")?,
        learner: words.sender(b'l')?,
        value: last_history(alloc, letters, words, b"value")?,
    })
}

// The history after this word, which ends the line.
fn last_history(
    alloc: Global,
    letters: &Letters,
    mut words: Words<'_>,
    word: &[u8],
) -> Result<History, Fault> {
    words.pass(word)?;
    letters.history(alloc, words.last()?)
}

/// The text of a message.
pub fn message_text(alloc: Global, letters: &Letters, m: &Msg) -> Result<String, Fault> {
    match m {
        Msg::Propose { command } => {
            let letter = letters.letter(command);
            Ok(format!(in alloc; "propose {letter}")?)
        }
        Msg::P1a { epoch, round } => headed(alloc, "p1a", *epoch, *round),
        Msg::P1b {
            epoch,
            round,
            acceptor,
            voted,
            vote,
        } => {
            let vote = voted_text(alloc, letters, *voted, vote)?;
            let head = headed(alloc, "p1b", *epoch, *round)?;
            Ok(format!(in alloc; "{head} from a{acceptor} {vote}")?)
        }
        _ => valued_text(alloc, letters, m),
    }
}

// The text of a message that carries a history and no vote of an earlier round.
fn valued_text(alloc: Global, letters: &Letters, m: &Msg) -> Result<String, Fault> {
    match m {
        Msg::P2a {
            epoch,
            round,
            coordinator,
            value,
        } => {
            let head = headed(alloc, "p2a", *epoch, *round)?;
            valued(alloc, letters, head, ('c', *coordinator), "value", value)
        }
        Msg::P2b {
            epoch,
            round,
            acceptor,
            vote,
        } => {
            let head = headed(alloc, "p2b", *epoch, *round)?;
            valued(alloc, letters, head, ('a', *acceptor), "vote", vote)
        }
        Msg::Final {
            epoch,
            learner,
            value,
        } => {
            let head = format!(in alloc; "final epoch {epoch}")?;
            valued(alloc, letters, head, ('l', *learner), "value", value)
        }
        _ => Err(Fault::Unread),
    }
}

// A head with the sender and the history after it.
fn valued(
    alloc: Global,
    letters: &Letters,
    head: String,
    sender: (char, u32),
    word: &str,
    value: &History,
) -> Result<String, Fault> {
    let (letter, number) = sender;
    let value = letters.order(alloc, value)?;
    Ok(format!(in alloc; "{head} from {letter}{number} {word} {value}")?)
}

fn headed(alloc: Global, kind: &str, epoch: u32, round: Round) -> Result<String, Fault> {
    let round = round_text(alloc, round)?;
    Ok(format!(in alloc; "{kind} epoch {epoch} round {round}")?)
}

/// The texts of messages, one a line, or `-` if there is none.
pub fn messages_text(alloc: Global, letters: &Letters, messages: &[Msg]) -> Result<String, Fault> {
    let mut text = String::new(alloc);
    if messages.is_empty() {
        text.push('-')?;
    }
    for m in messages {
        push_line(message_text(alloc, letters, m)?.as_str(), &mut text)?;
    }
    Ok(text)
}

/// What survives a crash: `epoch E round R voted R vote WORD` of an acceptor, and `epoch E round R`
/// of a coordinator.
pub fn durable_of(
    alloc: Global,
    letters: &Letters,
    mut words: Words<'_>,
) -> Result<Durable, Fault> {
    let epoch = words.number(b"epoch")?;
    let round = words.round(b"round")?;
    if !words.has_more() {
        return Ok(Durable::Coordinator { epoch, round });
    }
    Ok(Durable::Acceptor {
        epoch,
        round,
        voted: words.round(b"voted")?,
        vote: last_history(alloc, letters, words, b"vote")?,
    })
}

/// The text of what survives a crash.
pub fn durable_text(alloc: Global, letters: &Letters, durable: &Durable) -> Result<String, Fault> {
    match durable {
        Durable::Coordinator { epoch, round } => {
            let round = round_text(alloc, *round)?;
            Ok(format!(in alloc; "epoch {epoch} round {round}")?)
        }
        Durable::Acceptor {
            epoch,
            round,
            voted,
            vote,
        } => {
            let vote = voted_text(alloc, letters, *voted, vote)?;
            let round = round_text(alloc, *round)?;
            Ok(format!(in alloc; "epoch {epoch} round {round} {vote}")?)
        }
    }
}

// The text of the vote of a round.
fn voted_text(
    alloc: Global,
    letters: &Letters,
    voted: Round,
    vote: &History,
) -> Result<String, Fault> {
    let voted = round_text(alloc, voted)?;
    let vote = letters.order(alloc, vote)?;
    Ok(format!(in alloc; "voted {voted} vote {vote}")?)
}

/// The text of a round.
pub fn round_text(alloc: Global, round: Round) -> Result<String, Fault> {
    let mode = match round.mode {
        Mode::Single => "single",
        Mode::Multi => "multi",
        Mode::Fast => "fast",
    };
    let (count, lead) = (round.count, round.lead);
    Ok(format!(in alloc; "{count}.{mode}.{lead}")?)
}
