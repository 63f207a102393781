//! Stages that show a part of a text.
use crate::folds::{alike, folded};
use gp_cases::{Fault, Words, number};
use std::alloc::Global;

/// What is shown of a text: `first N` and `last N` lines, `begin TEXT` the lines that begin so, `of
/// NODE` the lines of events of this node, `count LINE` how many lines are equal to this one, `lines`
/// how many there are, `before` and `after` the lines before and after the first line `--`, `ends` the
/// lines of learners and the last line of each reader, `heads` the same with the lines of learners up
/// to their colons; `words` each word as a line of its own, `joined` all lines as one, with ` / `
/// between them.
pub fn shaped(alloc: Global, mut words: Words<'_>, text: &[u8]) -> Result<Vec<u8>, Fault> {
    let word = words.next()?;
    match word {
        b"count" => return count_text(alloc, words.rest()?, text),
        b"begin" => return beginning_with(alloc, words.rest()?, text),
        b"of" => return events_of(alloc, words.rest()?, text),
        b"first" => return first_lines(alloc, counted(words)?, text),
        b"last" => return last_lines(alloc, counted(words)?, text),
        _ => {}
    }
    words.end()?;
    match word {
        b"words" => each_word(alloc, text),
        b"joined" => joined(alloc, text),
        b"folded" => folded(alloc, text),
        b"alike" => alike(alloc, text),
        b"lines" => number_text(alloc, text.split_inclusive(is_feed).count()),
        b"before" => Ok(Vec::from_slice(alloc, parts_of(text).0)?),
        b"after" => Ok(Vec::from_slice(alloc, parts_of(text).1)?),
        b"ends" => ends_of(alloc, text, false),
        b"heads" => ends_of(alloc, text, true),
        _ => Err(Fault::Unread),
    }
}

fn counted(mut words: Words<'_>) -> Result<usize, Fault> {
    let count = number(words.next()?)?;
    words.end()?;
    Ok(count as usize)
}

/// Whether a byte is a line feed.
pub fn is_feed(byte: &u8) -> bool {
    *byte == b'\n'
}

fn is_colon(byte: &u8) -> bool {
    *byte == b':'
}

/// Appends a line with its line feed.
pub fn push_line(line: &[u8], to: &mut Vec<u8>) -> Result<(), Fault> {
    to.extend_from_slice(line)?;
    Ok(to.push(b'\n')?)
}

/// The lines before and after the first line `--`.
pub fn parts_of(text: &[u8]) -> (&[u8], &[u8]) {
    let mut length = 0usize;
    for line in text.split_inclusive(is_feed) {
        let next = length.saturating_add(line.len());
        if *line == *b"--\n".as_slice() {
            let before = text.get(..length).unwrap_or(text);
            return (before, text.get(next..).unwrap_or(b""));
        }
        length = next;
    }
    (text, b"")
}

fn each_word(alloc: Global, text: &[u8]) -> Result<Vec<u8>, Fault> {
    let mut given = Vec::new(alloc);
    for byte in text {
        given.push(if *byte == b' ' { b'\n' } else { *byte })?;
    }
    Ok(given)
}

fn count_text(alloc: Global, wanted: &[u8], text: &[u8]) -> Result<Vec<u8>, Fault> {
    let count = text.split(is_feed).filter(|line| *line == wanted).count();
    number_text(alloc, count)
}

fn number_text(alloc: Global, number: usize) -> Result<Vec<u8>, Fault> {
    let line = format!(in alloc; "{number}")?;
    Ok(Vec::from_slice(alloc, line.as_bytes())?)
}

fn joined(alloc: Global, text: &[u8]) -> Result<Vec<u8>, Fault> {
    let mut given = Vec::new(alloc);
    for line in text.split_inclusive(is_feed) {
        if !given.is_empty() {
            given.extend_from_slice(b" / ")?;
        }
        given.extend_from_slice(line.split(is_feed).next().unwrap_or(line))?;
    }
    Ok(given)
}

// The lines whose second word is this node.
fn events_of(alloc: Global, node: &[u8], text: &[u8]) -> Result<Vec<u8>, Fault> {
    let mut given = Vec::new(alloc);
    for line in text.split(is_feed) {
        if line.split(|byte| *byte == b' ').nth(1) == Some(node) {
            push_line(line, &mut given)?;
        }
    }
    Ok(given)
}

fn beginning_with(alloc: Global, begin: &[u8], text: &[u8]) -> Result<Vec<u8>, Fault> {
    let mut given = Vec::new(alloc);
    for line in text.split_inclusive(is_feed) {
        if line.starts_with(begin) {
            given.extend_from_slice(line)?;
        }
    }
    Ok(given)
}

fn first_lines(alloc: Global, count: usize, text: &[u8]) -> Result<Vec<u8>, Fault> {
    let mut given = Vec::new(alloc);
    for line in text.split_inclusive(is_feed).take(count) {
        given.extend_from_slice(line)?;
    }
    Ok(given)
}

fn last_lines(alloc: Global, count: usize, text: &[u8]) -> Result<Vec<u8>, Fault> {
    let all = text.split_inclusive(is_feed).count();
    let mut given = Vec::new(alloc);
    for line in text
        .split_inclusive(is_feed)
        .skip(all.saturating_sub(count))
    {
        given.extend_from_slice(line)?;
    }
    Ok(given)
}

fn ends_of(alloc: Global, text: &[u8], up_to_colon: bool) -> Result<Vec<u8>, Fault> {
    let mut given = Vec::new(alloc);
    for line in text.split(is_feed) {
        if line.starts_with(b"l") {
            let head = if up_to_colon { head_of(line) } else { line };
            push_line(head, &mut given)?;
        }
    }
    push_last(text, b"r0 ", &mut given)?;
    push_last(text, b"r1 ", &mut given)?;
    Ok(given)
}

// A line up to its colon.
fn head_of(line: &[u8]) -> &[u8] {
    match line.split(is_colon).next() {
        Some(head) => head,
        None => line,
    }
}

// Appends the last line that begins so, if there is one.
fn push_last(text: &[u8], begin: &[u8], to: &mut Vec<u8>) -> Result<(), Fault> {
    let mut last: Option<&[u8]> = None;
    for line in text.split(is_feed) {
        if line.starts_with(begin) {
            last = Some(line);
        }
    }
    match last {
        Some(line) => push_line(line, to),
        None => Ok(()),
    }
}
