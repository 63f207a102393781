//! The steps of an acceptor.
ghost use Rattle.std.specs.Prelude.{◌≡◌};
ghost use Rattle.gp_msg.specs.Messages.{message_of, closed_by};

use gp_acceptor::Acceptor;
use gp_cases::{
    Fault, Request, Subject, Words, config_of, durable_of, durable_text, message_of, messages_text,
};
use gp_msg::Msg;
use std::alloc::Global;
use std::sync::Wait;
use std::thread::Threads;

/// A file has one acceptor at a time.
#[derive(Drop)]
pub struct Acceptors {
    acceptor: Option<Acceptor>,
}

impl Acceptors {
    pub fn new() -> Acceptors {
        Acceptors { acceptor: None }
    }
}

impl Subject for Acceptors {
    fn answer<W: Threads + Wait + Sync>(
        &mut self,
        _threads: &W,
        alloc: Global,
        request: Request<'_>,
    ) -> Result<String, Fault> {
        let mut words = request.words();
        let name = words.name()?;
        if name == "acceptor" {
            self.acceptor = Some(opened(alloc, words)?);
        }
        match &mut self.acceptor {
            Some(acceptor) => step(alloc, request, acceptor, name, words),
            None => Err(Fault::Unread),
        }
    }
}

// The acceptor of the words `aN of A C L`.
fn opened(alloc: Global, mut words: Words<'_>) -> Result<Acceptor, Fault> {
    let number = words.next_node(b'a')?;
    words.pass(b"of")?;
    Ok(Acceptor::new(alloc, &config_of(words)?, number)?)
}

// What a step gives: what is sent for a message, or the state.
fn step(
    alloc: Global,
    request: Request<'_>,
    acceptor: &mut Acceptor,
    name: &str,
    words: Words<'_>,
) -> Result<String, Fault> {
    match name {
        "take" => return take(alloc, request, acceptor, words),
        "fall" => fall(alloc, request, acceptor, words)?,
        "copy" => *acceptor = acceptor.copy()?,
        "state" => words.end()?,
        "acceptor" => {}
        _ => return Err(Fault::Unread),
    }
    durable_text(alloc, request.letters, &acceptor.durable()?)
}

// Crashes, and restarts from the state of the words, or from its own if there are none.
fn fall(
    alloc: Global,
    request: Request<'_>,
    acceptor: &mut Acceptor,
    words: Words<'_>,
) -> Result<(), Fault> {
    let durable = if words.has_more() {
        durable_of(alloc, request.letters, words)?
    } else {
        acceptor.durable()?
    };
    acceptor.fall(durable);
    Ok(())
}

fn take(
    alloc: Global,
    request: Request<'_>,
    acceptor: &mut Acceptor,
    words: Words<'_>,
) -> Result<String, Fault> {
    let m = message_of(alloc, request.letters, words)?;
    if closed_by(&m) == u32::MAX {
        return Err(Fault::Unread);
    }
    messages_text(alloc, request.letters, acceptor.take(&m)?.as_slice())
}

/// The epoch that a message closes, 0 for one that closes none. The greatest epoch is not closed.
pub fn closed_by(m: &Msg) -> u32
    ensures { result ≡ closed_by (message_of m.now) }
{
    match m {
        Msg::Final { epoch, .. } => *epoch,
        _ => 0,
    }
}
