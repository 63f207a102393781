//! The commands on histories. Each is run in both representations.
use crate::indexes;
use gp_bounds::{compatible, join, join_all, meet, meet_all};
use gp_cases::{Fault, Letters, Request, Subject, Words};
use gp_command::Command;
use gp_epoch::{cut, first_checkpoint};
use gp_history::{Hist, SeqHistory};
use gp_index::History;
use std::alloc::Global;
use std::sync::Wait;
use std::thread::Threads;

/// Histories have no state.
#[derive(Drop)]
pub struct Histories;

impl Subject for Histories {
    // One text, or that of each representation if they differ.
    fn answer<W: Threads + Wait + Sync>(
        &mut self,
        _threads: &W,
        alloc: Global,
        request: Request<'_>,
    ) -> Result<String, Fault> {
        if let Some(text) = indexes::text_of(alloc, request)? {
            return Ok(text);
        }
        let plain = text_in::<SeqHistory>(alloc, request)?;
        let indexed = text_in::<History>(alloc, request)?;
        if plain == indexed {
            Ok(plain)
        } else {
            Ok(format!(in alloc; "sequence {plain}, index {indexed}")?)
        }
    }
}

fn text_in<H: Hist>(alloc: Global, request: Request<'_>) -> Result<String, Fault> {
    let letters = request.letters;
    let mut words = request.words();
    match words.name()? {
        "push" => pushes::<H>(alloc, letters, words),
        "meet-all" => met::<H>(alloc, letters, words),
        "join-all" => joined::<H>(alloc, letters, words),
        "compare" => compared::<H>(alloc, letters, words),
        "bounds" => bounds::<H>(alloc, letters, words),
        name => {
            let history: H = letters.next_history(alloc, &mut words)?;
            of_one(alloc, letters, name, history, words)
        }
    }
}

fn of_one<H: Hist>(
    alloc: Global,
    letters: &Letters,
    name: &str,
    history: H,
    words: Words<'_>,
) -> Result<String, Fault> {
    match name {
        "sequence" => letters.sequence(alloc, &history),
        "order" => letters.order(alloc, &history),
        "places" => places(alloc, letters, &history),
        "cut" => cuts(alloc, letters, &history),
        "clear" => clears(alloc, letters, history, words),
        "copies" => copies(alloc, letters, history, words),
        _ => Err(Fault::Unread),
    }
}

fn compared<H: Hist>(
    alloc: Global,
    letters: &Letters,
    mut words: Words<'_>,
) -> Result<String, Fault> {
    let a: H = letters.next_history(alloc, &mut words)?;
    let b: H = letters.next_history(alloc, &mut words)?;
    let is_same = a.same(&b) && b.same(&a);
    let text = relation(a.is_prefix(&b), b.is_prefix(&a), is_same);
    Ok(String::from_str(alloc, text)?)
}

/// How two histories stand to each other, by the three comparisons of them.
pub fn relation(is_prefix: bool, is_longer: bool, is_same: bool) -> &'static str {
    match (is_prefix, is_longer, is_same) {
        (true, true, true) => "same",
        (true, false, false) => "prefix",
        (false, true, false) => "longer",
        (false, false, false) => "apart",
        _ => "comparisons that contradict each other",
    }
}

fn history_list<H: Hist>(
    alloc: Global,
    letters: &Letters,
    words: Words<'_>,
) -> Result<Vec<H>, Fault> {
    let mut list = Vec::new(alloc);
    if words.has_more() {
        for word in words.rest()?.split(|byte| *byte == b' ') {
            list.push(letters.history(alloc, word)?)?;
        }
    }
    Ok(list)
}

fn met<H: Hist>(alloc: Global, letters: &Letters, mut words: Words<'_>) -> Result<String, Fault> {
    let mask = words.next_byte()?;
    let list: Vec<H> = history_list(alloc, letters, words)?;
    letters.order(alloc, &meet_of(alloc, &list, mask)?)
}

fn meet_of<H: Hist>(alloc: Global, list: &[H], mask: u8) -> Result<H, Fault> {
    if mask == 0 || list.len() > 7 || mask >= 1 << list.len() {
        return Err(Fault::Unread);
    }
    Ok(meet_all(alloc, list, mask)?)
}

fn joined<H: Hist>(alloc: Global, letters: &Letters, words: Words<'_>) -> Result<String, Fault> {
    let list: Vec<H> = history_list(alloc, letters, words)?;
    letters.order(alloc, &join_all(alloc, &list)?)
}

// Whether two histories are compatible, their meet and their join. The first two do not depend on
// the order of the two.
fn bounds<H: Hist>(
    alloc: Global,
    letters: &Letters,
    mut words: Words<'_>,
) -> Result<String, Fault> {
    let a: H = letters.next_history(alloc, &mut words)?;
    let b: H = letters.next_history(alloc, &mut words)?;
    if are_bounded_alike(alloc, &a, &b)? {
        bounds_of(alloc, letters, &a, &b)
    } else {
        Ok(String::from_str(alloc, "another answer if turned round")?)
    }
}

fn bounds_of<H: Hist>(alloc: Global, letters: &Letters, a: &H, b: &H) -> Result<String, Fault> {
    let word = if compatible(a, b) {
        "compatible"
    } else {
        "apart"
    };
    let common = letters.order(alloc, &meet(alloc, a, b)?)?;
    let joined = letters.order(alloc, &join(alloc, a, b)?)?;
    Ok(format!(in alloc; "{word}, meet {common}, join {joined}")?)
}

fn are_bounded_alike<H: Hist>(alloc: Global, a: &H, b: &H) -> Result<bool, Fault> {
    let is_met_alike = meet(alloc, a, b)?.same(&meet(alloc, b, a)?);
    Ok(is_met_alike && compatible(a, b) == compatible(b, a))
}

// For each letter whether it was new, and how many commands there are then.
fn pushes<H: Hist>(
    alloc: Global,
    letters: &Letters,
    mut words: Words<'_>,
) -> Result<String, Fault> {
    let mut history = H::empty(alloc)?;
    let mut text = String::new(alloc);
    for letter in words.next()? {
        push(alloc, letters, &mut history, *letter, &mut text)?;
    }
    words.end()?;
    Ok(text)
}

fn push<H: Hist>(
    alloc: Global,
    letters: &Letters,
    history: &mut H,
    letter: u8,
    text: &mut String,
) -> Result<(), Fault> {
    let command = letters.command(letter)?;
    let was_there = history.has(&command);
    let is_new = history.push(command)?;
    let word = match (was_there, is_new) {
        (false, true) => "new",
        (true, false) => "old",
        _ => "wrong",
    };
    let gap = if text.is_empty() { "" } else { " " };
    let len = history.len();
    text.push_str(format!(in alloc; "{gap}{word} {len}")?.as_str())?;
    Ok(())
}

// The letters of the file that a history has, each with its place.
fn places<H: Hist>(alloc: Global, letters: &Letters, history: &H) -> Result<String, Fault> {
    let mut text = String::new(alloc);
    for name in letters.names(alloc)? {
        let command = letters.command(name)?;
        match history.place_of(&command, 0) {
            Some(place) if is_found(history, &command, Some(place)) => {
                push_place(alloc, name, place, &mut text)?;
            }
            None if is_found(history, &command, None) => {}
            _ => text.push('!')?,
        }
    }
    or_dash(text)
}

/// The text, or `-` if it is empty.
pub fn or_dash(mut text: String) -> Result<String, Fault> {
    if text.is_empty() {
        text.push('-')?;
    }
    Ok(text)
}

// Whether a command has this place, looked for from each place and from two behind the end.
fn is_found<H: Hist>(history: &H, command: &Command, place: Option<usize>) -> bool {
    for near in 0..history.len().saturating_add(3) {
        if history.place_of(command, near) != place {
            return false;
        }
    }
    history.has(command) == place.is_some()
}

/// Appends a letter with its place.
pub fn push_place(alloc: Global, name: u8, place: usize, text: &mut String) -> Result<(), Fault> {
    let gap = if text.is_empty() { "" } else { " " };
    let letter = char::from(name);
    text.push_str(format!(in alloc; "{gap}{letter}@{place}")?.as_str())?;
    Ok(())
}

// The first checkpoint, and the history up to it.
fn cuts<H: Hist>(alloc: Global, letters: &Letters, history: &H) -> Result<String, Fault> {
    let first = match first_checkpoint(history) {
        Some(command) => letters.letter(command),
        None => '-',
    };
    let kept = letters.order(alloc, &cut(alloc, history)?)?;
    Ok(format!(in alloc; "{first} {kept}")?)
}

// The history after it was cleared, its places, its copy, and the history after the letters were pushed on it.
fn clears<H: Hist>(
    alloc: Global,
    letters: &Letters,
    mut history: H,
    mut words: Words<'_>,
) -> Result<String, Fault> {
    let word = words.last()?;
    let copy = history.copy()?;
    history.clear();
    let cleared = letters.sequence(alloc, &history)?;
    let places = places(alloc, letters, &history)?;
    let copy = letters.sequence(alloc, &copy)?;
    let anew = pushed(alloc, letters, history, word)?;
    Ok(format!(in alloc; "{cleared} {places} {copy} {anew}")?)
}

// The history after the letters of a word were pushed on it.
fn pushed<H: Hist>(
    alloc: Global,
    letters: &Letters,
    mut history: H,
    word: &[u8],
) -> Result<String, Fault> {
    letters.push(word, &mut history)?;
    letters.sequence(alloc, &history)
}

// The history after letters were pushed on it, its copy after others were, and a copy from before.
fn copies<H: Hist>(
    alloc: Global,
    letters: &Letters,
    history: H,
    mut words: Words<'_>,
) -> Result<String, Fault> {
    let (first, second) = (words.next()?, words.last()?);
    let copy = history.copy()?;
    let before = copy.copy()?;
    let one = pushed(alloc, letters, history, first)?;
    let other = pushed(alloc, letters, copy, second)?;
    let before = letters.sequence(alloc, &before)?;
    Ok(format!(in alloc; "{one} {other} {before}")?)
}
