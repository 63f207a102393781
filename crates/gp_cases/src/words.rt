//! The words of a line, read from left to right.
use crate::fault::Fault;
use gp_round::{Config, Mode, Round};
use gp_words::{number_of, split_token};
use std::str::from_utf8;

/// The words that are left of a line.
#[derive(Clone, Copy)]
pub struct Words<'a> {
    rest: Option<&'a [u8]>,
}

impl<'a> Words<'a> {
    pub fn new(line: &'a [u8]) -> Words<'a> {
        Words { rest: Some(line) }
    }

    /// The next word.
    pub fn next(&mut self) -> Result<&'a [u8], Fault> {
        let (word, rest) = split_token(self.rest()?);
        self.rest = rest;
        Ok(word)
    }

    /// The next word as text, to compare it with names.
    pub fn name(&mut self) -> Result<&'a str, Fault> {
        match from_utf8(self.next()?) {
            Ok(name) => Ok(name),
            Err(_) => Err(Fault::Unread),
        }
    }

    /// The text that is left.
    pub fn rest(&self) -> Result<&'a [u8], Fault> {
        match self.rest {
            Some(rest) => Ok(rest),
            None => Err(Fault::Unread),
        }
    }

    /// Whether a word is left.
    pub fn has_more(&self) -> bool {
        self.rest.is_some()
    }

    /// The last word of the line.
    pub fn last(&mut self) -> Result<&'a [u8], Fault> {
        match split_token(self.rest()?) {
            (word, None) => {
                self.rest = None;
                Ok(word)
            }
            _ => Err(Fault::Unread),
        }
    }

    /// The number that the next word spells.
    pub fn next_number(&mut self) -> Result<u32, Fault> {
        number(self.next()?)
    }

    /// The number that the next word spells, as a size or a place.
    pub fn next_size(&mut self) -> Result<usize, Fault> {
        Ok(self.next_number()? as usize)
    }

    /// The number below 256 that the next word spells.
    pub fn next_byte(&mut self) -> Result<u8, Fault> {
        byte(self.next()?)
    }

    /// The number below 2^64 that the next word spells.
    pub fn next_number_64(&mut self) -> Result<u64, Fault> {
        number_64(self.next()?)
    }

    /// The round that the next word spells as `COUNT.MODE.LEAD`.
    pub fn next_round(&mut self) -> Result<Round, Fault> {
        round_of(self.next()?)
    }

    /// The number of the node of this letter that the next word names.
    pub fn next_node(&mut self, letter: u8) -> Result<u32, Fault> {
        node(letter, self.next()?)
    }

    /// Passes over this word.
    pub fn pass(&mut self, word: &[u8]) -> Result<(), Fault> {
        if *self.next()? == *word {
            Ok(())
        } else {
            Err(Fault::Unread)
        }
    }

    /// `Unread` if a word is left.
    pub fn end(&self) -> Result<(), Fault> {
        match self.rest {
            Some(_) => Err(Fault::Unread),
            None => Ok(()),
        }
    }

    /// Whether this word is left. No other word is.
    pub fn flag(&mut self, word: &[u8]) -> Result<bool, Fault> {
        if !self.has_more() {
            return Ok(false);
        }
        self.pass(word)?;
        self.end()?;
        Ok(true)
    }

    /// The number after this word.
    pub fn number(&mut self, word: &[u8]) -> Result<u32, Fault> {
        self.pass(word)?;
        self.next_number()
    }

    /// The round after this word, as `COUNT.MODE.LEAD`.
    pub fn round(&mut self, word: &[u8]) -> Result<Round, Fault> {
        self.pass(word)?;
        self.next_round()
    }

    /// The text after this word.
    pub fn text(&mut self, word: &[u8]) -> Result<&'a [u8], Fault> {
        self.pass(word)?;
        self.next()
    }

    /// The number of the node of this letter after the word `from`.
    pub fn sender(&mut self, letter: u8) -> Result<u32, Fault> {
        self.pass(b"from")?;
        self.next_node(letter)
    }
}

/// The number that a word spells.
pub fn number(word: &[u8]) -> Result<u32, Fault> {
    match number_of(word) {
        Some(number) if number <= u32::MAX as u64 => Ok(number as u32),
        _ => Err(Fault::Unread),
    }
}

/// The number below 256 that a word spells.
pub fn byte(word: &[u8]) -> Result<u8, Fault> {
    match number_of(word) {
        Some(number) if number <= u8::MAX as u64 => Ok(number as u8),
        _ => Err(Fault::Unread),
    }
}

/// The number below 2^64 that a word spells.
pub fn number_64(word: &[u8]) -> Result<u64, Fault> {
    match number_of(word) {
        Some(number) => Ok(number),
        None => Err(Fault::Unread),
    }
}

/// The number of a node of this letter, as in `a0`.
pub fn node(letter: u8, word: &[u8]) -> Result<u32, Fault> {
    match word.split_first() {
        Some((first, digits)) if *first == letter => number(digits),
        _ => Err(Fault::Unread),
    }
}

/// What is before and after the first such byte of a word.
pub fn split_at(mark: u8, word: &[u8]) -> Result<(&[u8], &[u8]), Fault> {
    match word.iter().position(|byte| *byte == mark) {
        Some(place) => Ok((&word[..place], &word[place + 1..])),
        None => Err(Fault::Unread),
    }
}

/// The round that a word spells as `COUNT.MODE.LEAD`.
pub fn round_of(word: &[u8]) -> Result<Round, Fault> {
    let (count, rest) = split_at(b'.', word)?;
    let (mode, lead) = split_at(b'.', rest)?;
    Ok(Round {
        count: number(count)?,
        mode: mode_of(mode)?,
        lead: number(lead)?,
    })
}

/// The mode of this name.
pub fn mode_of(word: &[u8]) -> Result<Mode, Fault> {
    match from_utf8(word) {
        Ok("single") => Ok(Mode::Single),
        Ok("multi") => Ok(Mode::Multi),
        Ok("fast") => Ok(Mode::Fast),
        _ => Err(Fault::Unread),
    }
}

/// The configuration of the three counts `ACCEPTORS COORDINATORS LEARNERS`, which end the line.
pub fn config_of(mut words: Words<'_>) -> Result<Config, Fault> {
    let config = config_words(&mut words)?;
    words.end()?;
    Ok(config)
}

/// The configuration of the next three counts, `ACCEPTORS COORDINATORS LEARNERS`.
pub fn config_words(words: &mut Words<'_>) -> Result<Config, Fault> {
    let acceptors = words.next_number()?;
    let coordinators = words.next_number()?;
    let learners = words.next_number()?;
    match Config::new(acceptors, coordinators, learners) {
        Ok(config) => Ok(config),
        Err(_) => Err(Fault::Unread),
    }
}
