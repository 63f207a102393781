//! Commands: conflicts, keys, drafts, and the bytes of commands.
use gp_cases::{
    Fault, Letters, Request, Subject, Words, bytes_of_hex, bytes_of_text, number, push_hex,
};
use gp_command::{
    Access, Command, Draft, DraftRefused, Key, ReadRefused, Touch, conflicts, read_command,
    write_command,
};
use std::alloc::Global;
use std::cmp::Ordering;
use std::sync::Wait;
use std::thread::Threads;

/// The bytes that were given last.
#[derive(Drop)]
pub struct Commands {
    bytes: Vec<u8>,
}

impl Commands {
    pub fn new(alloc: Global) -> Commands {
        Commands {
            bytes: Vec::new(alloc),
        }
    }

    // What the bytes read as, all of them, or changed as the words say.
    fn read(&self, alloc: Global, letters: &Letters, words: Words<'_>) -> Result<String, Fault> {
        let mut bytes = self.bytes.clone()?;
        if words.has_more() {
            change(&mut bytes, words)?;
        }
        match read_command(alloc, &bytes) {
            Ok((command, len)) => {
                let letter = letters.letter(&command);
                Ok(format!(in alloc; "{letter} in {len} bytes")?)
            }
            Err(ReadRefused::Bad { at }) => Ok(format!(in alloc; "bad at {at}")?),
            Err(ReadRefused::Cut { at }) => Ok(format!(in alloc; "cut at {at}")?),
            Err(ReadRefused::NoMemory) => Err(Fault::NoMemory),
        }
    }

    // Whether a command is written as the bytes, after what was there.
    fn written(&self, alloc: Global, command: &Command) -> Result<String, Fault> {
        let id = command.id();
        if id.proposer >= 8 || id.number == 0 {
            return Err(Fault::Unread);
        }
        let mut bytes = Vec::new(alloc);
        bytes.push(9)?;
        write_command(command, &mut bytes)?;
        match bytes.strip_prefix(&[9]) {
            Some(written) if *written == *self.bytes.as_slice() => {
                Ok(String::from_str(alloc, "as given")?)
            }
            _ => hex_of(alloc, &bytes),
        }
    }
}

fn hex_of(alloc: Global, bytes: &[u8]) -> Result<String, Fault> {
    let mut text = String::new(alloc);
    push_hex(alloc, bytes, &mut text)?;
    Ok(text)
}

// Cuts the bytes, fills them up, or puts another byte at a place, as the words say.
fn change(bytes: &mut Vec<u8>, mut words: Words<'_>) -> Result<(), Fault> {
    match words.name()? {
        "first" => bytes.truncate(words.next_size()?),
        "filled-to" => bytes.resize(words.next_size()?, 0xff)?,
        "with" => put(bytes, words.next_size()?, words.next_byte()?)?,
        _ => return Err(Fault::Unread),
    }
    words.end()
}

/// Puts a byte at a place that is there.
pub fn put(bytes: &mut Vec<u8>, place: usize, value: u8) -> Result<(), Fault> {
    match bytes.get_mut(place) {
        Some(byte) => {
            *byte = value;
            Ok(())
        }
        None => Err(Fault::Unread),
    }
}

impl Subject for Commands {
    fn answer<W: Threads + Wait + Sync>(
        &mut self,
        _threads: &W,
        alloc: Global,
        request: Request<'_>,
    ) -> Result<String, Fault> {
        let letters = request.letters;
        let mut words = request.words();
        match words.name()? {
            "bytes" => {
                self.bytes = bytes_of_text(alloc, request.input)?;
                let len = self.bytes.len();
                Ok(format!(in alloc; "{len} bytes")?)
            }
            "read" => self.read(alloc, letters, words),
            "written" => self.written(alloc, &command(letters, words)?),
            name => text_of(alloc, letters, name, words),
        }
    }
}

// What the commands give that do not read the bytes that were given last.
fn text_of(
    alloc: Global,
    letters: &Letters,
    name: &str,
    words: Words<'_>,
) -> Result<String, Fault> {
    match name {
        "conflict" => conflict(alloc, letters, words),
        "order" => order(alloc, letters, words),
        "copy" => copied(alloc, letters, words),
        "show" => shown(alloc, letters, words),
        "key" => key(alloc, words.rest()?),
        "key-of-hex" => key(alloc, &bytes_of_hex(alloc, words.rest()?)?),
        "keys" => keys(alloc, words),
        "draft" => drafted(alloc, words),
        "checkpoint" => {
            let body = sevens(alloc, words.rest()?)?;
            made(alloc, Draft::checkpoint(alloc, &body))
        }
        _ => Err(Fault::Unread),
    }
}

fn letter(letters: &Letters, words: &mut Words<'_>) -> Result<Command, Fault> {
    match words.next()? {
        [letter] => letters.command(*letter),
        _ => Err(Fault::Unread),
    }
}

// The command of the last word.
fn command(letters: &Letters, mut words: Words<'_>) -> Result<Command, Fault> {
    let command = letter(letters, &mut words)?;
    words.end()?;
    Ok(command)
}

// The commands of the last two words.
fn two_commands(letters: &Letters, mut words: Words<'_>) -> Result<(Command, Command), Fault> {
    let a = letter(letters, &mut words)?;
    let b = command(letters, words)?;
    Ok((a, b))
}

// Whether two commands conflict, whichever comes first.
fn conflict(alloc: Global, letters: &Letters, words: Words<'_>) -> Result<String, Fault> {
    let (a, b) = two_commands(letters, words)?;
    let text = match (conflicts(&a, &b), conflicts(&b, &a)) {
        (true, true) => "yes",
        (false, false) => "no",
        _ => "another answer if turned round",
    };
    Ok(String::from_str(alloc, text)?)
}

// How two commands are ordered, and whether they have one draft.
fn order(alloc: Global, letters: &Letters, words: Words<'_>) -> Result<String, Fault> {
    let (a, b) = two_commands(letters, words)?;
    let text = ordered(&a, &b);
    let drafts = if *a.draft() == *b.draft() {
        "equal"
    } else {
        "other"
    };
    Ok(format!(in alloc; "{text}, {drafts} drafts")?)
}

/// The word for how two values are ordered, by all comparisons of them.
pub fn ordered<T: Ord>(a: &T, b: &T) -> &'static str {
    match (a < b, a == b, b < a, a.cmp(b)) {
        (true, false, false, Ordering::Less) => "less",
        (false, true, false, Ordering::Equal) => "equal",
        (false, false, true, Ordering::Greater) => "greater",
        _ => "comparisons that contradict each other",
    }
}

fn copied(alloc: Global, letters: &Letters, words: Words<'_>) -> Result<String, Fault> {
    let text = if is_copied(&command(letters, words)?)? {
        "equal"
    } else {
        "other"
    };
    Ok(String::from_str(alloc, text)?)
}

fn is_copied(command: &Command) -> Result<bool, Fault> {
    let copy = command.copy()?;
    let draft = command.draft().copy()?;
    Ok(copy == *command && *copy.draft() == draft)
}

fn shown(alloc: Global, letters: &Letters, words: Words<'_>) -> Result<String, Fault> {
    let command = command(letters, words)?;
    let (proposer, number) = (command.id().proposer, command.id().number);
    let draft = command.draft();
    let kind = if draft.is_checkpoint() {
        "checkpoint"
    } else {
        "command"
    };
    let touches = draft.foot().len();
    let body = String::from_utf8_lossy(alloc, draft.body())?;
    Ok(format!(in alloc; "{kind} p{proposer}.{number}, {touches} touches, body {body}")?)
}

fn key(alloc: Global, bytes: &[u8]) -> Result<String, Fault> {
    let word = match Key::new(bytes) {
        Ok(_) => "good",
        Err(_) => "bad",
    };
    Ok(String::from_str(alloc, word)?)
}

fn keys(alloc: Global, mut words: Words<'_>) -> Result<String, Fault> {
    match (Key::new(words.next()?), Key::new(words.next()?)) {
        (Ok(a), Ok(b)) => Ok(String::from_str(alloc, ordered(&a, &b))?),
        _ => Err(Fault::Unread),
    }
}

// Writes of keys of one letter, and a body of so many bytes.
fn drafted(alloc: Global, mut words: Words<'_>) -> Result<String, Fault> {
    let touches = writes(alloc, words.next()?)?;
    let body = sevens(alloc, words.next()?)?;
    made(alloc, Draft::new(alloc, &touches, &body))
}

fn writes(alloc: Global, keys: &[u8]) -> Result<Vec<Touch>, Fault> {
    let mut touches = Vec::new(alloc);
    if *keys == *b"-".as_slice() {
        return Ok(touches);
    }
    for letter in keys {
        let Ok(key) = Key::new(&[*letter]) else {
            return Err(Fault::Unread);
        };
        touches.push(Touch {
            key,
            access: Access::Write,
        })?;
    }
    Ok(touches)
}

// As many bytes as a word says.
fn sevens(alloc: Global, word: &[u8]) -> Result<Vec<u8>, Fault> {
    let mut body = Vec::new(alloc);
    body.resize(number(word)? as usize, 7)?;
    Ok(body)
}

fn made(alloc: Global, draft: Result<Draft, DraftRefused>) -> Result<String, Fault> {
    match draft {
        Ok(draft) => {
            let (touches, bytes) = (draft.foot().len(), draft.body().len());
            Ok(format!(in alloc; "{touches} touches, {bytes} bytes")?)
        }
        Err(DraftRefused::Unsorted { at }) => Ok(format!(in alloc; "unsorted at {at}")?),
        Err(DraftRefused::TooMany { given }) => Ok(format!(in alloc; "too many touches: {given}")?),
        Err(DraftRefused::TooLong { given }) => Ok(format!(in alloc; "too long: {given}")?),
        Err(DraftRefused::NoMemory) => Err(Fault::NoMemory),
    }
}
