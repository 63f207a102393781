//! Stages that change an input, and bytes of disks.
use crate::shapes::{is_feed, push_line};
use gp_cases::{Fault, Words, bytes_of_hex, number, split_at};
use std::alloc::Global;

/// An input as it is given: `cut` without its last line feed, `split` with a line feed for each
/// ` / `, `line TEXT` with this line at its end, `filled N` with the text between its two tildes so
/// often that it has N bytes, `escaped` with a byte for each `\xHH`.
pub fn changed(alloc: Global, mut words: Words<'_>, text: &[u8]) -> Result<Vec<u8>, Fault> {
    match words.next()? {
        b"cut" => {
            words.end()?;
            cut(alloc, text)
        }
        b"split" => {
            words.end()?;
            split(alloc, text)
        }
        b"line" => {
            let mut given = Vec::from_slice(alloc, text)?;
            push_line(words.rest()?, &mut given)?;
            Ok(given)
        }
        b"filled" => {
            let length = number(words.next()?)?;
            words.end()?;
            filled(alloc, length as usize, text)
        }
        _ => {
            words.end()?;
            escaped(alloc, text)
        }
    }
}

fn cut(alloc: Global, text: &[u8]) -> Result<Vec<u8>, Fault> {
    match text {
        [rest @ .., b'\n'] => Ok(Vec::from_slice(alloc, rest)?),
        _ => Err(Fault::Unread),
    }
}

fn split(alloc: Global, text: &[u8]) -> Result<Vec<u8>, Fault> {
    let mut given = Vec::new(alloc);
    for word in text.split_inclusive(|byte| *byte == b' ') {
        if *word == *b"/ ".as_slice() {
            given.pop();
            given.push(b'\n')?;
        } else {
            given.extend_from_slice(word)?;
        }
    }
    Ok(given)
}

fn filled(alloc: Global, length: usize, text: &[u8]) -> Result<Vec<u8>, Fault> {
    let (before, rest) = split_at(b'~', text)?;
    let (filler, after) = split_at(b'~', rest)?;
    let room = length
        .saturating_sub(before.len())
        .saturating_sub(after.len());
    let Some(count) = room.checked_div(filler.len()) else {
        return Err(Fault::Unread);
    };
    let mut given = Vec::from_slice(alloc, before)?;
    for _ in 0..count {
        given.extend_from_slice(filler)?;
    }
    given.extend_from_slice(after)?;
    Ok(given)
}

fn escaped(alloc: Global, text: &[u8]) -> Result<Vec<u8>, Fault> {
    let mut given = Vec::new(alloc);
    let mut is_first = true;
    for piece in text.split(|byte| *byte == b'\\') {
        match piece {
            _ if is_first => given.extend_from_slice(piece)?,
            [b'x', high, low, rest @ ..] => {
                given.extend_from_slice(&bytes_of_hex(alloc, &[*high, *low])?)?;
                given.extend_from_slice(rest)?;
            }
            _ => return Err(Fault::Unread),
        }
        is_first = false;
    }
    Ok(given)
}

/// The bytes that words spell: hexadecimal digits, `=N` a number of four bytes, the least one
/// first, `"TEXT"` these letters.
pub fn bytes_of(alloc: Global, text: &[u8]) -> Result<Vec<u8>, Fault> {
    let mut bytes = Vec::new(alloc);
    for line in text.split(is_feed) {
        for word in line.split(|byte| *byte == b' ') {
            match word {
                [] => {}
                [b'=', digits @ ..] => bytes.extend_from_slice(&number(digits)?.to_le_bytes())?,
                [b'"', letters @ .., b'"'] => bytes.extend_from_slice(letters)?,
                _ => bytes.extend_from_slice(&bytes_of_hex(alloc, word)?)?,
            }
        }
    }
    Ok(bytes)
}
