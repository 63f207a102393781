//! Stages that shorten what repeats itself.
use crate::shapes::{is_feed, push_line};
use gp_cases::{Fault, number, split_at};
use std::alloc::Global;

// Identities `pN.M` whose numbers follow each other, and what stands behind each.
#[derive(Clone, Copy)]
struct Range<'a> {
    proposer: &'a [u8],
    first: u32,
    last: u32,
    behind: &'a [u8],
}

/// `folded`: in each line the identities of a proposer whose numbers follow each other, with equal
/// ends, stand as one: `p0.1..3=ok` for `p0.1=ok p0.2=ok p0.3=ok`.
pub fn folded(alloc: Global, text: &[u8]) -> Result<Vec<u8>, Fault> {
    let mut given = Vec::new(alloc);
    for line in text.split_inclusive(is_feed) {
        let plain = line.split(is_feed).next().unwrap_or(line);
        push_folded(alloc, plain, &mut given)?;
        given.push(b'\n')?;
    }
    Ok(given)
}

fn push_folded(alloc: Global, line: &[u8], to: &mut Vec<u8>) -> Result<(), Fault> {
    let mut open: Option<Range<'_>> = None;
    let mut is_first = true;
    for word in line.split(|byte| *byte == b' ') {
        let next = range_of(word);
        let longer = extended(open, next);
        if longer.is_none() {
            push_open(alloc, open, to)?;
            if !is_first {
                to.push(b' ')?;
            }
            if next.is_none() {
                to.extend_from_slice(word)?;
            }
        }
        is_first = false;
        open = longer.or(next);
    }
    push_open(alloc, open, to)
}

// The range with the identity that goes on with it.
fn extended<'a>(open: Option<Range<'a>>, next: Option<Range<'a>>) -> Option<Range<'a>> {
    match (open, next) {
        (Some(range), Some(single)) if follows(range, single) => {
            Some(Range {
                last: single.last,
                ..range
            })
        }
        _ => None,
    }
}

// Whether a word goes on with a range.
fn follows(range: Range<'_>, single: Range<'_>) -> bool {
    *range.proposer == *single.proposer
        && *range.behind == *single.behind
        && range.last.checked_add(1) == Some(single.first)
}

// The range of one identity, `None` for any other word.
fn range_of(word: &[u8]) -> Option<Range<'_>> {
    let (proposer, rest) = split_at(b'.', word).ok()?;
    if !proposer.starts_with(b"p") {
        return None;
    }
    let (digits, behind) = match split_at(b'=', rest) {
        Ok((digits, value)) => (digits, value),
        Err(_) => (rest, b"".as_slice()),
    };
    let first = number(digits).ok()?;
    Some(Range {
        proposer,
        first,
        last: first,
        behind,
    })
}

// Appends a range, if there is one.
fn push_open(alloc: Global, open: Option<Range<'_>>, to: &mut Vec<u8>) -> Result<(), Fault> {
    let Some(range) = open else {
        return Ok(());
    };
    let (first, last) = (range.first, range.last);
    to.extend_from_slice(range.proposer)?;
    to.extend_from_slice(format!(in alloc; ".{first}..{last}")?.as_bytes())?;
    if !range.behind.is_empty() {
        to.push(b'=')?;
        to.extend_from_slice(range.behind)?;
    }
    Ok(())
}

/// `alike`: how many learners there are, and then what each of them shows without its name, if all
/// show the same, and the other lines; or else the text as it is.
pub fn alike(alloc: Global, text: &[u8]) -> Result<Vec<u8>, Fault> {
    let first = shown_by(alloc, b"l0 ", text)?;
    let mut learners = 0usize;
    let mut lines = 0usize;
    for number in 0..8usize {
        let name = format!(in alloc; "l{number} ")?;
        let shown = shown_by(alloc, name.as_bytes(), text)?;
        if !shown.is_empty() {
            if *shown.as_slice() != *first.as_slice() {
                return Ok(Vec::from_slice(alloc, text)?);
            }
            learners = learners.saturating_add(1);
        }
        lines = lines.saturating_add(shown.split_inclusive(is_feed).count());
    }
    let mut given = Vec::new(alloc);
    push_line(
        format!(in alloc; "{learners} learners")?.as_bytes(),
        &mut given,
    )?;
    given.extend_from_slice(&first)?;
    push_others(text, lines, &mut given)?;
    Ok(given)
}

// What the lines that begin with a name show after it.
fn shown_by(alloc: Global, name: &[u8], text: &[u8]) -> Result<Vec<u8>, Fault> {
    let mut shown = Vec::new(alloc);
    for line in text.split_inclusive(is_feed) {
        if let Some(rest) = line.strip_prefix(name) {
            shown.extend_from_slice(rest)?;
        }
    }
    Ok(shown)
}

// Appends the lines that are of no learner.
fn push_others(text: &[u8], learned: usize, to: &mut Vec<u8>) -> Result<(), Fault> {
    let mut of_learners = 0usize;
    for line in text.split_inclusive(is_feed) {
        if line.starts_with(b"l") {
            of_learners = of_learners.saturating_add(1);
        } else {
            to.extend_from_slice(line)?;
        }
    }
    if of_learners == learned {
        Ok(())
    } else {
        Err(Fault::Unread)
    }
}
