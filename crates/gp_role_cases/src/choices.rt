//! The safe choice.
use gp_cases::{Fault, Request, Subject, Words, config_of};
use gp_safe::{Answer, pick};
use std::alloc::Global;
use std::sync::Wait;
use std::thread::Threads;

/// Choices have no state.
#[derive(Drop)]
pub struct Choices;

impl Subject for Choices {
    // The choice after the answers of the input lines, each as `aN voted ROUND vote WORD`.
    fn answer<W: Threads + Wait + Sync>(
        &mut self,
        _threads: &W,
        alloc: Global,
        request: Request<'_>,
    ) -> Result<String, Fault> {
        let mut words = request.words();
        words.pass(b"pick")?;
        words.pass(b"of")?;
        let config = config_of(words)?;
        let answers = answers_of(alloc, request)?;
        let chosen = pick(alloc, &config, &answers)?;
        request.letters.order(alloc, &chosen)
    }
}

fn answers_of(alloc: Global, request: Request<'_>) -> Result<Vec<Answer>, Fault> {
    let mut answers = Vec::new(alloc);
    for line in request.input.split(|byte| *byte == b'\n') {
        if !line.is_empty() {
            answers.push(answer_of(alloc, request, Words::new(line))?)?;
        }
    }
    Ok(answers)
}

fn answer_of(alloc: Global, request: Request<'_>, mut words: Words<'_>) -> Result<Answer, Fault> {
    let acceptor = words.next_node(b'a')?;
    let round = words.round(b"voted")?;
    words.pass(b"vote")?;
    let vote = request.letters.history(alloc, words.last()?)?;
    Ok(Answer {
        acceptor,
        round,
        vote,
    })
}
