//! The format of files of cases: `run` runs the lines below it as a file of cases, whose commands give
//! back what they are given.
use gp_cases::{Cases, Fault, Request, Subject, push_line};
use gp_index::History;
use std::alloc::Global;
use std::sync::Wait;
use std::thread::Threads;

/// Commands that give back what they are given: `give` its input lines, `say TEXT` the text, and
/// `order WORD` the history of the word.
#[derive(Drop)]
pub struct Format;

impl Subject for Format {
    fn answer<W: Threads + Wait + Sync>(
        &mut self,
        _threads: &W,
        alloc: Global,
        request: Request<'_>,
    ) -> Result<String, Fault> {
        let mut words = request.words();
        match words.name()? {
            "give" => Ok(String::from_utf8_lossy(alloc, request.input)?),
            "say" if !words.has_more() => Ok(String::new(alloc)),
            "say" => Ok(String::from_utf8_lossy(alloc, words.rest()?)?),
            "order" => {
                let history: History = request.letters.history(alloc, words.next()?)?;
                request.letters.order(alloc, &history)
            }
            _ => Err(Fault::Unread),
        }
    }
}

/// The same, and `run`, which gives what is told of the lines below it.
#[derive(Drop)]
pub struct Files;

impl Subject for Files {
    fn answer<W: Threads + Wait + Sync>(
        &mut self,
        threads: &W,
        alloc: Global,
        request: Request<'_>,
    ) -> Result<String, Fault> {
        let mut words = request.words();
        if words.name()? == "run" {
            return told(threads, alloc, request.input);
        }
        Format.answer(threads, alloc, request)
    }
}

fn told<W: Threads + Wait + Sync>(
    threads: &W,
    alloc: Global,
    input: &[u8],
) -> Result<String, Fault> {
    let mut cases = Cases::new(alloc);
    let mut text = String::new(alloc);
    if tell_lines(threads, alloc, input, &mut cases, &mut text)? {
        let (count, wrong) = (cases.count, cases.wrong);
        let end = format!(in alloc; "{count} cases, {wrong} wrong")?;
        push_line(end.as_str(), &mut text)?;
    }
    Ok(text)
}

// Tells what was found at the lines, and whether all were read.
fn tell_lines<W: Threads + Wait + Sync>(
    threads: &W,
    alloc: Global,
    input: &[u8],
    cases: &mut Cases,
    text: &mut String,
) -> Result<bool, Fault> {
    for line in input.split(|byte| *byte == b'\n') {
        let found = cases.line(threads, &mut Format, line);
        if !tell(alloc, cases.at, found, text)? {
            return Ok(false);
        }
    }
    let found = cases.close();
    tell(alloc, cases.at, found, text)
}

// Tells what was found at a line, and whether the next line is read.
fn tell(
    alloc: Global,
    number: usize,
    found: Result<Option<String>, Fault>,
    text: &mut String,
) -> Result<bool, Fault> {
    match found {
        Ok(None) => Ok(true),
        Ok(Some(wrong)) => {
            let line = format!(in alloc; "{number}: {wrong}")?;
            push_line(line.as_str(), text)?;
            Ok(true)
        }
        Err(Fault::Unread) => {
            let line = format!(in alloc; "{number}: not a line of a case")?;
            push_line(line.as_str(), text)?;
            Ok(false)
        }
        Err(Fault::NoMemory) => Err(Fault::NoMemory),
    }
}
