//! The further commands on histories with an index, and on the commands of closed epochs.
use crate::histories::{or_dash, push_place, relation};
use gp_cases::{Fault, Letters, Request, Words, push_line};
use gp_epoch::Done;
use gp_history::Hist;
use gp_index::History;
use std::alloc::Global;

/// What the command of a request gives, or `None` if it is a command of both representations.
pub fn text_of(alloc: Global, request: Request<'_>) -> Result<Option<String>, Fault> {
    let letters = request.letters;
    let mut words = request.words();
    let text = match words.name()? {
        "epochs" => epochs(alloc, letters, &letters.next_history(alloc, &mut words)?),
        "copied-epochs" => copied(alloc, letters, words),
        "in-order" => in_order(alloc, letters, words),
        "in-order-after" => in_order_after(alloc, letters, words),
        "compare-epochs" => compared(alloc, letters, words),
        "done" => done(alloc, letters, words),
        _ => return Ok(None),
    };
    Ok(Some(text?))
}

// Where the epochs of a history start, and each letter of the file that the index finds.
fn epochs(alloc: Global, letters: &Letters, history: &History) -> Result<String, Fault> {
    let mut starts = String::new(alloc);
    for i in 0..history.epochs() {
        let start = history.epoch_start(i);
        starts.push_str(format!(in alloc; "{start} ")?.as_str())?;
    }
    let found = found(alloc, letters, history)?;
    Ok(format!(in alloc; "{starts}with {found}")?)
}

fn found(alloc: Global, letters: &Letters, history: &History) -> Result<String, Fault> {
    let mut found = String::new(alloc);
    for name in letters.names(alloc)? {
        if let Some(place) = history.find(&letters.command(name)?) {
            push_place(alloc, name, place, &mut found)?;
        }
    }
    or_dash(found)
}

// The epochs of a history after letters were pushed on it, and of its copy after others were.
fn copied(alloc: Global, letters: &Letters, mut words: Words<'_>) -> Result<String, Fault> {
    let history: History = letters.next_history(alloc, &mut words)?;
    let copy = history.copy()?;
    let mut text = pushed_epochs(alloc, letters, history, words.next()?)?;
    let other = pushed_epochs(alloc, letters, copy, words.last()?)?;
    push_line(other.as_str(), &mut text)?;
    Ok(text)
}

// The epochs of a history after the letters of a word were pushed on it.
fn pushed_epochs(
    alloc: Global,
    letters: &Letters,
    mut history: History,
    word: &[u8],
) -> Result<String, Fault> {
    letters.push(word, &mut history)?;
    epochs(alloc, letters, &history)
}

fn in_order(alloc: Global, letters: &Letters, mut words: Words<'_>) -> Result<String, Fault> {
    let history: History = letters.next_history(alloc, &mut words)?;
    letters.sequence(alloc, &history.in_order()?)
}

fn in_order_after(alloc: Global, letters: &Letters, mut words: Words<'_>) -> Result<String, Fault> {
    let taken: History = letters.next_history(alloc, &mut words)?;
    let history: History = letters.next_history(alloc, &mut words)?;
    if !taken.is_prefix(&history) {
        return Err(Fault::Unread);
    }
    letters.sequence(alloc, &history.in_order_after(&taken)?)
}

fn compared(alloc: Global, letters: &Letters, mut words: Words<'_>) -> Result<String, Fault> {
    let a: History = letters.next_history(alloc, &mut words)?;
    let b: History = letters.next_history(alloc, &mut words)?;
    let (is_prefix, is_longer) = (a.is_prefix(&b), b.is_prefix(&a));
    let text = relation(is_prefix, is_longer, is_prefix && is_longer);
    Ok(String::from_str(alloc, text)?)
}

// The letters of the file that are done after these values, after a clear, and in a copy from
// before the clear.
fn done(alloc: Global, letters: &Letters, words: Words<'_>) -> Result<String, Fault> {
    let mut done = done_of(alloc, letters, words)?;
    let had = letters_done(alloc, letters, &done)?;
    let copy = done.copy()?;
    done.clear();
    let cleared = letters_done(alloc, letters, &done)?;
    let copied = letters_done(alloc, letters, &copy)?;
    Ok(format!(in alloc; "{had}, cleared {cleared}, copied {copied}")?)
}

fn done_of(alloc: Global, letters: &Letters, words: Words<'_>) -> Result<Done, Fault> {
    let mut done = Done::new(alloc)?;
    if words.has_more() {
        for word in words.rest()?.split(|byte| *byte == b' ') {
            done.add(&letters.history(alloc, word)?)?;
        }
    }
    Ok(done)
}

fn letters_done(alloc: Global, letters: &Letters, done: &Done) -> Result<String, Fault> {
    let mut text = String::new(alloc);
    for name in letters.names(alloc)? {
        if done.has(&letters.command(name)?) {
            text.push(char::from(name))?;
        }
    }
    or_dash(text)
}
