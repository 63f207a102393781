//! Kinds of messages and who reads them, and copies of messages, states, events and records.
use gp_cases::{
    Fault, Request, Subject, Words, draft_of_words, durable_of, durable_text, event_of, event_text,
    message_of, message_text, messages_text, node_of, node_text, push_line,
};
use gp_command::Draft;
use gp_msg::{Event, MsgKind, Node, OfferList, Outs, Record, Records, reads};
use std::alloc::Global;
use std::sync::Wait;
use std::thread::Threads;

/// Messages have no state.
#[derive(Drop)]
pub struct Messages;

impl Subject for Messages {
    fn answer<W: Threads + Wait + Sync>(
        &mut self,
        _threads: &W,
        alloc: Global,
        request: Request<'_>,
    ) -> Result<String, Fault> {
        let mut words = request.words();
        match words.name()? {
            "kind" => kind(alloc, request, words),
            "copy" => copied(alloc, request, words),
            "state" => copied_state(alloc, request, words),
            "event" => copied_event(alloc, words),
            "readers" => readers(alloc, words),
            "records" => records(alloc, request, words),
            "offers" => offers(alloc, request),
            _ => Err(Fault::Unread),
        }
    }
}

fn kind(alloc: Global, request: Request<'_>, words: Words<'_>) -> Result<String, Fault> {
    let m = message_of(alloc, request.letters, words)?;
    Ok(String::from_str(alloc, kind_text(m.kind()))?)
}

fn copied(alloc: Global, request: Request<'_>, words: Words<'_>) -> Result<String, Fault> {
    let m = message_of(alloc, request.letters, words)?;
    message_text(alloc, request.letters, &m.copy()?)
}

fn copied_state(alloc: Global, request: Request<'_>, words: Words<'_>) -> Result<String, Fault> {
    let durable = durable_of(alloc, request.letters, words)?;
    durable_text(alloc, request.letters, &durable.copy()?)
}

fn copied_event(alloc: Global, words: Words<'_>) -> Result<String, Fault> {
    let event = event_of(alloc, words)?;
    event_text(alloc, &event.copy()?)
}

fn kind_text(kind: MsgKind) -> &'static str {
    match kind {
        MsgKind::Propose => "propose",
        MsgKind::P1a => "p1a",
        MsgKind::P1b => "p1b",
        MsgKind::P2a => "p2a",
        MsgKind::P2b => "p2b",
        MsgKind::Final => "final",
    }
}

fn kind_of(word: &str) -> Result<MsgKind, Fault> {
    match word {
        "propose" => Ok(MsgKind::Propose),
        "p1a" => Ok(MsgKind::P1a),
        "p1b" => Ok(MsgKind::P1b),
        "p2a" => Ok(MsgKind::P2a),
        "p2b" => Ok(MsgKind::P2b),
        "final" => Ok(MsgKind::Final),
        _ => Err(Fault::Unread),
    }
}

// The roles that read a kind of messages.
fn readers(alloc: Global, mut words: Words<'_>) -> Result<String, Fault> {
    let kind = kind_of(words.name()?)?;
    words.end()?;
    let mut text = String::new(alloc);
    for node in [
        Node::Proposer(1),
        Node::Coordinator(0),
        Node::Acceptor(2),
        Node::Learner(0),
    ] {
        if reads(node, kind) {
            push_word(role_text(node), &mut text)?;
        }
    }
    Ok(text)
}

fn role_text(node: Node) -> &'static str {
    match node {
        Node::Proposer(_) => "proposers",
        Node::Coordinator(_) => "coordinators",
        Node::Acceptor(_) => "acceptors",
        Node::Learner(_) => "learners",
    }
}

// Appends a word, after a space if it is not the first one.
fn push_word(word: &str, to: &mut String) -> Result<(), Fault> {
    if !to.is_empty() {
        to.push(' ')?;
    }
    to.push_str(word)?;
    Ok(())
}

// The records after a copy of a record and then the record itself were pushed. The words are the
// node and the event, the input lines the messages that were sent.
fn records(alloc: Global, request: Request<'_>, mut words: Words<'_>) -> Result<String, Fault> {
    let step = Record {
        node: node_of(words.next()?)?,
        event: event_of(alloc, words)?,
        out: outs_of(alloc, request)?,
    };
    let records = twice(alloc, step)?;
    let mut text = String::new(alloc);
    for step in records.as_slice() {
        push_line(step_text(alloc, request, step)?.as_str(), &mut text)?;
    }
    Ok(text)
}

fn twice(alloc: Global, step: Record) -> Result<Records, Fault> {
    let mut records = Records::new(alloc);
    let copy = step.copy()?;
    if records.push(copy).is_err() || records.push(step).is_err() {
        return Err(Fault::NoMemory);
    }
    Ok(records)
}

fn outs_of(alloc: Global, request: Request<'_>) -> Result<Outs, Fault> {
    let mut outs = Outs::new(alloc);
    for line in request.input.split(|byte| *byte == b'\n') {
        if !line.is_empty() {
            let m = message_of(alloc, request.letters, Words::new(line))?;
            if outs.push(m).is_err() {
                return Err(Fault::NoMemory);
            }
        }
    }
    Ok(outs)
}

fn step_text(alloc: Global, request: Request<'_>, step: &Record) -> Result<String, Fault> {
    let node = node_text(alloc, step.node)?;
    let event = event_text(alloc, &step.event)?;
    let sent = messages_text(alloc, request.letters, step.out.as_slice())?;
    Ok(format!(in alloc; "{node}: {event}\n{sent}")?)
}

// The list after the offers of the input lines, each as `pN DRAFT`, were pushed on it.
fn offers(alloc: Global, request: Request<'_>) -> Result<String, Fault> {
    let list = offers_of(alloc, request)?;
    let mut text = String::new(alloc);
    for (proposer, draft) in list.as_slice() {
        let event = Event::Offer {
            proposer: *proposer,
            draft: draft.copy()?,
        };
        push_line(event_text(alloc, &event)?.as_str(), &mut text)?;
    }
    Ok(text)
}

fn offers_of(alloc: Global, request: Request<'_>) -> Result<OfferList, Fault> {
    let mut list = OfferList::new(alloc);
    for line in request.input.split(|byte| *byte == b'\n') {
        if !line.is_empty() {
            let offer = offer_of(alloc, Words::new(line))?;
            if list.push(offer).is_err() {
                return Err(Fault::NoMemory);
            }
        }
    }
    Ok(list)
}

fn offer_of(alloc: Global, mut words: Words<'_>) -> Result<(u32, Draft), Fault> {
    let proposer = words.next_node(b'p')?;
    Ok((proposer, draft_of_words(alloc, words)?))
}
