//! The spelling of nodes and events.
use crate::fault::Fault;
use crate::letters::draft_of_words;
use crate::messages::round_text;
use crate::words::{Words, node};
use gp_command::Draft;
use gp_msg::{Event, Kept, Node};
use gp_store::op_of;
use std::alloc::Global;

/// The node of a word, as `p0`, `c0`, `a0` or `l0`.
pub fn node_of(word: &[u8]) -> Result<Node, Fault> {
    match word.first() {
        Some(b'p') => Ok(Node::Proposer(node(b'p', word)?)),
        Some(b'c') => Ok(Node::Coordinator(node(b'c', word)?)),
        Some(b'a') => Ok(Node::Acceptor(node(b'a', word)?)),
        Some(b'l') => Ok(Node::Learner(node(b'l', word)?)),
        _ => Err(Fault::Unread),
    }
}

/// The text of a node.
pub fn node_text(alloc: Global, node: Node) -> Result<String, Fault> {
    let (letter, number) = match node {
        Node::Proposer(number) => ('p', number),
        Node::Coordinator(number) => ('c', number),
        Node::Acceptor(number) => ('a', number),
        Node::Learner(number) => ('l', number),
    };
    Ok(format!(in alloc; "{letter}{number}")?)
}

/// The event that the words spell: `offer pN DRAFT`, `begin cN ROUND`, `take NODE MESSAGE`,
/// `fall NODE`, `fall NODE after take MESSAGE` or `fall NODE after begin ROUND`.
pub fn event_of(alloc: Global, mut words: Words<'_>) -> Result<Event, Fault> {
    match words.name()? {
        "offer" => Ok(Event::Offer {
            proposer: words.next_node(b'p')?,
            draft: draft_of_words(alloc, words)?,
        }),
        "begin" => Ok(Event::Begin {
            coordinator: words.next_node(b'c')?,
            round: words.next_round()?,
        }),
        "take" => Ok(Event::Take {
            node: node_of(words.next()?)?,
            message: words.next_number_64()?,
        }),
        "fall" => fall_of(words),
        _ => Err(Fault::Unread),
    }
}

fn fall_of(mut words: Words<'_>) -> Result<Event, Fault> {
    let node = node_of(words.next()?)?;
    if !words.has_more() {
        return Ok(Event::Fall { node, kept: None });
    }
    words.pass(b"after")?;
    let kept = Some(kept_of(words)?);
    Ok(Event::Fall { node, kept })
}

fn kept_of(mut words: Words<'_>) -> Result<Kept, Fault> {
    match words.name()? {
        "take" => Ok(Kept::Take(words.next_number_64()?)),
        "begin" => Ok(Kept::Begin(words.next_round()?)),
        _ => Err(Fault::Unread),
    }
}

/// The text of an event. The draft of an offer is given by its body, with `not an operation: ` in
/// front if it is not the draft of the operation that its body spells.
pub fn event_text(alloc: Global, event: &Event) -> Result<String, Fault> {
    match event {
        Event::Offer { proposer, draft } => offer_text(alloc, *proposer, draft),
        Event::Begin { coordinator, round } => {
            let round = round_text(alloc, *round)?;
            Ok(format!(in alloc; "begin c{coordinator} {round}")?)
        }
        Event::Take { node, message } => {
            let node = node_text(alloc, *node)?;
            Ok(format!(in alloc; "take {node} {message}")?)
        }
        Event::Fall { node, kept } => fall_text(alloc, *node, *kept),
    }
}

fn offer_text(alloc: Global, proposer: u32, draft: &Draft) -> Result<String, Fault> {
    let mark = match op_of(draft) {
        Some(_) => "",
        None => "not an operation: ",
    };
    let body = String::from_utf8_lossy(alloc, draft.body())?;
    Ok(format!(in alloc; "offer p{proposer} {mark}{body}")?)
}

fn fall_text(alloc: Global, node: Node, kept: Option<Kept>) -> Result<String, Fault> {
    let node = node_text(alloc, node)?;
    match kept {
        None => Ok(format!(in alloc; "fall {node}")?),
        Some(Kept::Take(message)) => Ok(format!(in alloc; "fall {node} after take {message}")?),
        Some(Kept::Begin(round)) => {
            let round = round_text(alloc, round)?;
            Ok(format!(in alloc; "fall {node} after begin {round}")?)
        }
    }
}
