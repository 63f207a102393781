//! The key store: what operations do to it and what they reply.
use gp_cases::{Fault, Request, Subject, Words, draft_of_words};
use gp_command::{Command, CommandId};
use gp_replica::{Machine, Reply};
use gp_store::KeyStore;
use std::alloc::Global;
use std::sync::Wait;
use std::thread::Threads;

const FIRST: CommandId = CommandId {
    proposer: 0,
    number: 1,
};

/// A file has one store at a time.
#[derive(Drop)]
pub struct Stores {
    store: Option<KeyStore>,
}

impl Stores {
    pub fn new() -> Stores {
        Stores { store: None }
    }
}

impl Subject for Stores {
    fn answer<W: Threads + Wait + Sync>(
        &mut self,
        _threads: &W,
        alloc: Global,
        request: Request<'_>,
    ) -> Result<String, Fault> {
        let mut words = request.words();
        let name = words.name()?;
        if name == "store" {
            self.store = Some(KeyStore::opening(alloc)?);
            return Ok(String::new(alloc));
        }
        match &mut self.store {
            Some(store) => step(alloc, store, name, words),
            None => Err(Fault::Unread),
        }
    }
}

fn step(
    alloc: Global,
    store: &mut KeyStore,
    name: &str,
    words: Words<'_>,
) -> Result<String, Fault> {
    match name {
        "apply" => {
            let command = Command::new(FIRST, draft_of_words(alloc, words)?);
            reply_text(alloc, store.apply(&command)?)
        }
        "pairs" => pairs_text(alloc, store),
        _ => Err(Fault::Unread),
    }
}

/// The text of a reply.
pub fn reply_text(alloc: Global, reply: Reply) -> Result<String, Fault> {
    let word = match reply {
        Reply::Done => "done",
        Reply::Yes => "yes",
        Reply::No => "no",
        Reply::Absent => "absent",
        Reply::Value(value) => return Ok(format!(in alloc; "{value}")?),
    };
    Ok(String::from_str(alloc, word)?)
}

/// The keys of a store with their values, in order, or `-`.
pub fn pairs_text(alloc: Global, store: &KeyStore) -> Result<String, Fault> {
    let mut text = String::new(alloc);
    for (name, value) in store.pairs() {
        let gap = if text.is_empty() { "" } else { " " };
        let key = String::from_utf8_lossy(alloc, name.as_bytes())?;
        text.push_str(format!(in alloc; "{gap}{key}={value}")?.as_str())?;
        if store.get(*name) != Some(*value) {
            text.push('!')?;
        }
    }
    if text.is_empty() {
        text.push('-')?;
    }
    Ok(text)
}
