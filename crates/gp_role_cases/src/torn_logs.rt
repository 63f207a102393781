//! What a crash inside an append or a renewal may leave of a log. Each prefix and each suffix of each
//! write, with zeros or ones in the place of what was lost, opens to the entries before the call or
//! after it.
use crate::commands::put;
use crate::logs::{Opens, append, opened_text, opens};
use gp_cases::{Fault, Letters, Words, durable_of, number, split_at};
use gp_edge::CalmDisk;
use gp_msg::Durable;
use gp_vlog::Log;
use std::alloc::Global;

// The bytes of a log before a call and after it, what both open to, and the places of the two writes
// of the call: the piece, which ends before `end`, and the byte that makes it count.
#[derive(Drop)]
struct Change {
    old: Vec<u8>,
    before: Opens,
    new: Vec<u8>,
    after: Opens,
    piece: usize,
    end: usize,
    mark: usize,
}

/// Makes the call of the words `append A..B MARK STATE` or `renew A..B MARK STATE` on the log with these
/// bytes, and tears its writes, of the bytes A to B and of the byte MARK. Gives what the bytes open
/// to before the call and after it, and the first torn image that opens to something else.
pub fn torn(
    alloc: Global,
    letters: &Letters,
    bytes: &[u8],
    words: Words<'_>,
) -> Result<String, Fault> {
    let change = changed(alloc, letters, bytes, words)?;
    let before = opened_text(alloc, &change.before)?;
    let after = opened_text(alloc, &change.after)?;
    let end = match first_wrong(alloc, &change)? {
        Some(wrong) => format!(in alloc; "; but {wrong}")?,
        None => String::new(alloc),
    };
    Ok(format!(in alloc; "{before}, then {after}{end}")?)
}

fn changed(
    alloc: Global,
    letters: &Letters,
    bytes: &[u8],
    mut words: Words<'_>,
) -> Result<Change, Fault> {
    let renews = match words.name()? {
        "append" => false,
        "renew" => true,
        _ => return Err(Fault::Unread),
    };
    let range = range_of(words.next()?)?;
    let mark = words.next_size()?;
    let part = durable_of(alloc, letters, words)?;
    let new = after_call(alloc, bytes, &part, renews)?;
    change_of(alloc, bytes, new, range, mark)
}

fn change_of(
    alloc: Global,
    bytes: &[u8],
    new: Vec<u8>,
    range: (usize, usize),
    mark: usize,
) -> Result<Change, Fault> {
    let (piece, end) = range;
    let mut old = Vec::new(alloc);
    old.extend_from_slice(bytes)?;
    Ok(Change {
        before: opens(alloc, bytes)?,
        after: opens(alloc, &new)?,
        old,
        new,
        piece,
        end,
        mark,
    })
}

// The places of a word `A..B`.
fn range_of(word: &[u8]) -> Result<(usize, usize), Fault> {
    let (first, rest) = split_at(b'.', word)?;
    let (_, last) = split_at(b'.', rest)?;
    Ok((number(first)? as usize, number(last)? as usize))
}

// The bytes of the log with these bytes after the call.
fn after_call(alloc: Global, bytes: &[u8], part: &Durable, renews: bool) -> Result<Vec<u8>, Fault> {
    let Ok(mut log) = Log::open(alloc, CalmDisk::new(alloc, bytes)?) else {
        return Err(Fault::Unread);
    };
    if append(&mut log, part, renews)?.is_err() {
        return Err(Fault::Unread);
    }
    let mut new = Vec::new(alloc);
    new.extend_from_slice(log.into_disk().content())?;
    Ok(new)
}

// The first image that opens to something else.
fn first_wrong(alloc: Global, change: &Change) -> Result<Option<String>, Fault> {
    for noise in [0, 255] {
        for k in change.piece..=change.end {
            if !opens_as_before(alloc, change, change.piece, k, noise)? {
                return Ok(Some(format!(in alloc; "torn behind {k}")?));
            }
            if !opens_as_before(alloc, change, k, change.end, noise)? {
                return Ok(Some(format!(in alloc; "torn before {k}")?));
            }
        }
    }
    wrong_mark(alloc, change)
}

fn opens_as_before(
    alloc: Global,
    change: &Change,
    from: usize,
    to: usize,
    noise: u8,
) -> Result<bool, Fault> {
    let image = image(alloc, change, from, to, noise)?;
    Ok(opens(alloc, &image)? == change.before)
}

// The old bytes with the new ones of a range. What lies past the old end is noise elsewhere.
fn image(
    alloc: Global,
    change: &Change,
    from: usize,
    to: usize,
    noise: u8,
) -> Result<Vec<u8>, Fault> {
    let mut image = Vec::new(alloc);
    for i in 0..to.max(change.old.len()) {
        let byte = if from <= i && i < to {
            change.new.get(i)
        } else {
            change.old.get(i)
        };
        image.push(*byte.unwrap_or(&noise))?;
    }
    Ok(image)
}

// The first value of the byte that makes the piece count with which the whole piece opens to something
// else: a crash may leave any value of it.
fn wrong_mark(alloc: Global, change: &Change) -> Result<Option<String>, Fault> {
    let mut image = image(alloc, change, change.piece, change.end, 0)?;
    let was_zero = change.old.get(change.mark) == Some(&0);
    for mark in 0..=255 {
        put(&mut image, change.mark, mark)?;
        let wanted = if (mark == 0) == was_zero {
            change.before
        } else {
            change.after
        };
        if opens(alloc, &image)? != wanted {
            return Ok(Some(format!(in alloc; "marked {mark}")?));
        }
    }
    Ok(None)
}
