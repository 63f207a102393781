//! The steps of a learner.
ghost use Rattle.std.specs.Prelude.{◌≡◌};
ghost use Rattle.gp_msg.specs.Messages.{message_of, epoch_of};

use gp_cases::{Fault, Letters, Request, Subject, Words, config_words, message_of, messages_text};
use gp_learner::Learner;
use gp_msg::{Msg, Outs};
use std::alloc::Global;
use std::sync::Wait;
use std::thread::Threads;

/// A file has one learner at a time.
#[derive(Drop)]
pub struct Learners {
    learner: Option<Learner>,
}

impl Learners {
    pub fn new() -> Learners {
        Learners { learner: None }
    }
}

impl Subject for Learners {
    fn answer<W: Threads + Wait + Sync>(
        &mut self,
        _threads: &W,
        alloc: Global,
        request: Request<'_>,
    ) -> Result<String, Fault> {
        let mut words = request.words();
        let name = words.name()?;
        if name == "learner" {
            let (learner, text) = opened(alloc, request, words)?;
            self.learner = Some(learner);
            return Ok(text);
        }
        match &mut self.learner {
            Some(learner) => step(alloc, request, learner, name, words),
            None => Err(Fault::Unread),
        }
    }
}

// The learner of the words `lN of A C L`, and what it has learned. After `takes MESSAGE` it takes
// that message first, which may be of the greatest epoch.
fn opened(
    alloc: Global,
    request: Request<'_>,
    mut words: Words<'_>,
) -> Result<(Learner, String), Fault> {
    let number = words.next_node(b'l')?;
    words.pass(b"of")?;
    let config = config_words(&mut words)?;
    let mut learner = Learner::new(alloc, &config, number)?;
    let text = if words.has_more() {
        taken_first(alloc, request.letters, &mut learner, words)?
    } else {
        learned(alloc, request.letters, &learner)?
    };
    Ok((learner, text))
}

fn taken_first(
    alloc: Global,
    letters: &Letters,
    learner: &mut Learner,
    mut words: Words<'_>,
) -> Result<String, Fault>
    requires { learner.old.epoch ≡ 0 }
{
    words.pass(b"takes")?;
    let m = message_of(alloc, letters, words)?;
    let outs = take_first(learner, &m)?;
    after(alloc, letters, learner, &outs)
}

fn take_first(learner: &mut Learner, m: &Msg) -> Result<Outs, Fault>
    requires { learner.old.epoch ≡ 0 }
{
    Ok(learner.take(m)?)
}

// What a step gives: what is sent for a message, and what is learned.
fn step(
    alloc: Global,
    request: Request<'_>,
    learner: &mut Learner,
    name: &str,
    words: Words<'_>,
) -> Result<String, Fault> {
    match name {
        "take" => return take(alloc, request, learner, words),
        "fall" => learner.fall(),
        "copy" => *learner = learner.copy()?,
        "state" => {}
        _ => return Err(Fault::Unread),
    }
    words.end()?;
    learned(alloc, request.letters, learner)
}

fn take(
    alloc: Global,
    request: Request<'_>,
    learner: &mut Learner,
    words: Words<'_>,
) -> Result<String, Fault> {
    let m = message_of(alloc, request.letters, words)?;
    if epoch_of(&m) == u32::MAX {
        return Err(Fault::Unread);
    }
    let outs = learner.take(&m)?;
    after(alloc, request.letters, learner, &outs)
}

fn after(
    alloc: Global,
    letters: &Letters,
    learner: &Learner,
    outs: &Outs,
) -> Result<String, Fault> {
    let sent = messages_text(alloc, letters, outs.as_slice())?;
    let learned = learned(alloc, letters, learner)?;
    Ok(format!(in alloc; "{sent}; {learned}")?)
}

fn learned(alloc: Global, letters: &Letters, learner: &Learner) -> Result<String, Fault> {
    let word = letters.order(alloc, learner.learned())?;
    Ok(format!(in alloc; "learned {word}")?)
}

// The epoch of a message, 0 for a proposal.
fn epoch_of(m: &Msg) -> u32
    ensures { result ≡ epoch_of (message_of m.now) }
{
    match m {
        Msg::Propose { .. } => 0,
        Msg::P1a { epoch, .. }
        | Msg::P1b { epoch, .. }
        | Msg::P2a { epoch, .. }
        | Msg::P2b { epoch, .. }
        | Msg::Final { epoch, .. } => *epoch,
    }
}
