//! What replicas of the key store run of the histories that they learn, and what they reply.
use crate::stores::{pairs_text, reply_text};
use gp_cases::{Fault, Request, Subject, Words, id_of, push_line};
use gp_history::Hist;
use gp_index::History;
use gp_replica::{Replica, has_distinct_ids};
use gp_store::KeyStore;
use std::alloc::Global;
use std::sync::Wait;
use std::thread::Threads;

// A replica, and what it has learned.
#[derive(Drop)]
struct Learned {
    replica: Replica<KeyStore>,
    history: History,
}

/// A file has one replica at a time.
#[derive(Drop)]
pub struct Replicas {
    learned: Option<Learned>,
}

impl Replicas {
    pub fn new() -> Replicas {
        Replicas { learned: None }
    }
}

impl Subject for Replicas {
    fn answer<W: Threads + Wait + Sync>(
        &mut self,
        _threads: &W,
        alloc: Global,
        request: Request<'_>,
    ) -> Result<String, Fault> {
        let mut words = request.words();
        let name = words.name()?;
        if name == "replica" {
            self.learned = Some(opened(alloc)?);
            return Ok(String::new(alloc));
        }
        match &mut self.learned {
            Some(learned) => step(alloc, request, learned, name, words),
            None => Err(Fault::Unread),
        }
    }
}

fn opened(alloc: Global) -> Result<Learned, Fault> {
    Ok(Learned {
        replica: Replica::new(alloc)?,
        history: History::empty(alloc)?,
    })
}

fn step(
    alloc: Global,
    request: Request<'_>,
    learned: &mut Learned,
    name: &str,
    words: Words<'_>,
) -> Result<String, Fault> {
    match name {
        "learn" => learn(alloc, request, learned, words),
        "ran" => ran(alloc, request, &learned.replica),
        "reply" => reply(alloc, &learned.replica, words),
        "pairs" => pairs_text(alloc, learned.replica.machine()),
        _ => Err(Fault::Unread),
    }
}

// Learns the commands of the letters of the next word, if there is one, and runs what it can.
fn learn(
    alloc: Global,
    request: Request<'_>,
    learned: &mut Learned,
    mut words: Words<'_>,
) -> Result<String, Fault> {
    if words.has_more() {
        request.letters.push(words.last()?, &mut learned.history)?;
    }
    let count = caught_up(&mut learned.replica, &learned.history)?;
    Ok(format!(in alloc; "{count} run")?)
}

// The reply to the command with this identity, or `-`.
fn reply(
    alloc: Global,
    replica: &Replica<KeyStore>,
    mut words: Words<'_>,
) -> Result<String, Fault> {
    match replica.reply(id_of(words.next()?)?) {
        Some(reply) => reply_text(alloc, reply),
        None => Ok(String::from_str(alloc, "-")?),
    }
}

// How many commands are run now.
fn caught_up(replica: &mut Replica<KeyStore>, learned: &History) -> Result<usize, Fault> {
    if !replica.ran().is_prefix(learned) {
        return Err(Fault::Unread);
    }
    if !has_distinct_ids(learned) {
        return Err(Fault::Unread);
    }
    Ok(replica.catch_up(learned)?)
}

// What was run, in its order, and the replies, each with the identity of its command.
fn ran(alloc: Global, request: Request<'_>, replica: &Replica<KeyStore>) -> Result<String, Fault> {
    let mut text = request.letters.sequence(alloc, replica.ran())?;
    for (id, reply) in replica.replies() {
        let (proposer, number) = (id.proposer, id.number);
        let reply_to = reply_text(alloc, *reply)?;
        let line = format!(in alloc; "p{proposer}.{number} {reply_to}")?;
        push_line(line.as_str(), &mut text)?;
        if replica.reply(*id) != Some(*reply) {
            text.push('!')?;
        }
    }
    Ok(text)
}
