//! Commands by letters, and histories by words of these letters.
use crate::fault::Fault;
use crate::hex::bytes_of_hex;
use crate::words::{Words, node, number, split_at};
use gp_command::{Access, Command, CommandId, Draft, Key, Touch};
use gp_history::Hist;
use gp_store::{draft_of, op_form, op_of_form};
use gp_words::tokens_of;
use std::alloc::Global;
use std::str::from_utf8;

// A letter, and the command that it stands for.
#[derive(Drop)]
struct Named {
    letter: u8,
    command: Command,
}

/// The letters of a file, and their commands.
#[derive(Drop)]
pub struct Letters {
    named: Vec<Named>,
}

impl Letters {
    pub fn new(alloc: Global) -> Letters {
        Letters {
            named: Vec::new(alloc),
        }
    }

    /// Reads `LETTER pN.M DRAFT`, with the draft as in `draft_of_words`. A letter is defined once.
    pub fn define(&mut self, alloc: Global, mut words: Words<'_>) -> Result<(), Fault> {
        let letter = letter_of(words.next()?)?;
        for named in &self.named {
            if named.letter == letter {
                return Err(Fault::Unread);
            }
        }
        let id = id_of(words.next()?)?;
        let command = Command::new(id, draft_of_words(alloc, words)?);
        self.named.push(Named { letter, command })?;
        Ok(())
    }

    /// The letters, in the order in which they were defined.
    pub fn names(&self, alloc: Global) -> Result<Vec<u8>, Fault> {
        let mut names = Vec::new(alloc);
        for named in &self.named {
            names.push(named.letter)?;
        }
        Ok(names)
    }

    /// The command of a letter.
    pub fn command(&self, letter: u8) -> Result<Command, Fault> {
        for named in &self.named {
            if named.letter == letter {
                return Ok(named.command.copy()?);
            }
        }
        Err(Fault::Unread)
    }

    /// The letter of a command, or `?` if no letter stands for it.
    pub fn letter(&self, command: &Command) -> char {
        for named in &self.named {
            if named.command == *command {
                return char::from(named.letter);
            }
        }
        '?'
    }

    /// The history in which the letters of a word are pushed in their order; `-` has none.
    pub fn history<H: Hist>(&self, alloc: Global, word: &[u8]) -> Result<H, Fault> {
        let mut history = H::empty(alloc)?;
        self.push(word, &mut history)?;
        Ok(history)
    }

    /// The history of the next word.
    pub fn next_history<H: Hist>(&self, alloc: Global, words: &mut Words<'_>) -> Result<H, Fault> {
        self.history(alloc, words.next()?)
    }

    /// Pushes the letters of a word in their order; `-` has none.
    pub fn push<H: Hist>(&self, word: &[u8], history: &mut H) -> Result<(), Fault> {
        if *word == *b"-".as_slice() {
            return Ok(());
        }
        for letter in word {
            history.push(self.command(*letter)?)?;
        }
        Ok(())
    }

    /// The letters of a history in the order of its sequence, or `-`.
    pub fn sequence<H: Hist>(&self, alloc: Global, history: &H) -> Result<String, Fault> {
        let mut word = String::new(alloc);
        for place in 0..history.len() {
            word.push(self.letter(history.at(place)))?;
        }
        or_dash(word)
    }

    /// The letters of a history in canonical order, or `-`. Equal histories have equal ones.
    pub fn order<H: Hist>(&self, alloc: Global, history: &H) -> Result<String, Fault> {
        self.sequence(alloc, &order_of(alloc, history)?)
    }
}

/// The same history with its commands in canonical order.
pub fn order_of<H: Hist>(alloc: Global, history: &H) -> Result<H, Fault> {
    let mut taken = H::empty(alloc)?;
    for _ in 0..history.len() {
        push_next(history, &mut taken)?;
    }
    if taken.is_prefix(history) && history.next_least(&taken).is_none() {
        return Ok(taken);
    }
    Err(Fault::Unread)
}

fn push_next<H: Hist>(history: &H, taken: &mut H) -> Result<(), Fault> {
    if !taken.is_prefix(history) {
        return Err(Fault::Unread);
    }
    if let Some(next) = history.next_least(taken) {
        taken.push(next.copy()?)?;
    }
    Ok(())
}

fn or_dash(mut word: String) -> Result<String, Fault> {
    if word.is_empty() {
        word.push('-')?;
    }
    Ok(word)
}

fn letter_of(word: &[u8]) -> Result<u8, Fault> {
    match word {
        [letter] if letter.is_ascii_alphanumeric() => Ok(*letter),
        _ => Err(Fault::Unread),
    }
}

/// The identity that a word spells, as `p0.1`.
pub fn id_of(word: &[u8]) -> Result<CommandId, Fault> {
    let (proposer, count) = split_at(b'.', word)?;
    Ok(CommandId {
        proposer: node(b'p', proposer)?,
        number: number(count)?,
    })
}

/// The draft that the words spell: an operation as scripts write it, or
/// `touches ACCESS:KEY,ACCESS:KEY TEXT` with the accesses `read`, `add` and `write`, or
/// `checkpoint-of TEXT`. The text is the body. It may be absent, and `hex DIGITS` in its place spells
/// any bytes.
pub fn draft_of_words(alloc: Global, words: Words<'_>) -> Result<Draft, Fault> {
    let mut others = words;
    match others.name()? {
        "touches" => touching(alloc, others),
        "checkpoint-of" => {
            let body = body_left(alloc, others)?;
            Ok(Draft::checkpoint(alloc, &body)?)
        }
        _ => operation(alloc, words.rest()?),
    }
}

fn touching(alloc: Global, mut words: Words<'_>) -> Result<Draft, Fault> {
    let foot = touches_of(alloc, words.next()?)?;
    let body = body_left(alloc, words)?;
    Ok(Draft::new(alloc, &foot, &body)?)
}

fn operation(alloc: Global, text: &[u8]) -> Result<Draft, Fault> {
    let tokens = tokens_of(alloc, text)?;
    match op_form(&tokens) {
        Some(form) => Ok(draft_of(alloc, op_of_form(form)?)?),
        None => Err(Fault::Unread),
    }
}

fn body_left(alloc: Global, words: Words<'_>) -> Result<Vec<u8>, Fault> {
    let mut body = Vec::new(alloc);
    if !words.has_more() {
        return Ok(body);
    }
    let text = words.rest()?;
    if let Some(digits) = text.strip_prefix(b"hex ") {
        return bytes_of_hex(alloc, digits);
    }
    body.extend_from_slice(text)?;
    Ok(body)
}

fn touches_of(alloc: Global, word: &[u8]) -> Result<Vec<Touch>, Fault> {
    let mut touches = Vec::new(alloc);
    if *word == *b"-".as_slice() {
        return Ok(touches);
    }
    for part in word.split(|byte| *byte == b',') {
        touches.push(touch_of(part)?)?;
    }
    Ok(touches)
}

fn touch_of(word: &[u8]) -> Result<Touch, Fault> {
    let (access, key) = split_at(b':', word)?;
    Ok(Touch {
        key: key_of(key)?,
        access: access_of(access)?,
    })
}

fn key_of(word: &[u8]) -> Result<Key, Fault> {
    match Key::new(word) {
        Ok(key) => Ok(key),
        Err(_) => Err(Fault::Unread),
    }
}

/// The access of this name.
pub fn access_of(word: &[u8]) -> Result<Access, Fault> {
    match from_utf8(word) {
        Ok("read") => Ok(Access::Read),
        Ok("add") => Ok(Access::Add),
        Ok("write") => Ok(Access::Write),
        _ => Err(Fault::Unread),
    }
}

/// `yes` or `no`.
pub fn yes_or_no(alloc: Global, holds: bool) -> Result<String, Fault> {
    let word = if holds { "yes" } else { "no" };
    Ok(String::from_str(alloc, word)?)
}

/// Appends a line, after a line feed if it is not the first one.
pub fn push_line(line: &str, to: &mut String) -> Result<(), Fault> {
    if !to.is_empty() {
        to.push('\n')?;
    }
    to.push_str(line)?;
    Ok(())
}
