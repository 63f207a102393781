//! The stages of a command.
use crate::inputs::{bytes_of, changed};
use crate::operations::{command_bytes, spelled};
use crate::scripts::script_text;
use crate::serving::{Ended, Special, served};
use crate::settling::settled_text;
use crate::shapes::{is_feed, parts_of, push_line, shaped};
use gp_cases::{Fault, Request, Subject, Words, number, number_64, push_hex};
use std::alloc::Global;
use std::sync::Wait;
use std::thread::Threads;

/// The program, the disk that has bytes, and what the run before left.
#[derive(Drop)]
pub struct Program {
    disk: Special,
    // How many records the last run has and the one before it, and whether nodes in threads posted
    // the last ones.
    records: usize,
    records_before: usize,
    is_posted: bool,
    // Whether it left the bytes of that disk as they were.
    is_kept: bool,
}

impl Program {
    pub fn new(alloc: Global) -> Program {
        Program {
            disk: Special::none(alloc),
            records: 0,
            records_before: 0,
            is_posted: false,
            is_kept: true,
        }
    }

    fn stage<W: Threads + Wait + Sync>(
        &mut self,
        rt: &W,
        alloc: Global,
        line: &[u8],
        text: &[u8],
    ) -> Result<Vec<u8>, Fault> {
        let mut words = Words::new(line);
        match words.next()? {
            b"serve" => self.serve(rt, alloc, words, text),
            b"replayed" => self.replayed(rt, alloc, text),
            b"file" => self.file(alloc, words, text),
            b"more" => self.more(alloc, words, text),
            b"fails" => self.fails(alloc, words),
            b"kept" => Ok(Vec::from_slice(alloc, yes_or_no(self.is_kept))?),
            b"content" => self.content(alloc),
            b"longer" => self.longer(alloc, words),
            b"records" => self.records_text(alloc),
            b"recorded" => Ok(Vec::from_slice(alloc, yes_or_no(self.records > 0))?),
            b"posted" => Ok(Vec::from_slice(alloc, yes_or_no(self.is_posted))?),
            b"matched" => {
                let are_matched = self.records == self.records_before;
                Ok(Vec::from_slice(alloc, yes_or_no(are_matched))?)
            }
            b"cut" | b"split" | b"line" | b"filled" | b"escaped" => changed(
                alloc,
                Words::new(line),
                text,
            ),
            b"offers" | b"messages" | b"printed" | b"summary" | b"clash" => {
                script_text(alloc, Words::new(line), text)
            }
            b"settled" => settled_text(rt, alloc, text),
            b"spelled" => spelled(alloc, words),
            b"bytes" => command_bytes(alloc, words),
            _ => shaped(alloc, Words::new(line), text),
        }
    }

    // What the program prints for these words with this input, and its status if that is not 0.
    fn serve<W: Threads + Wait + Sync>(
        &mut self,
        rt: &W,
        alloc: Global,
        words: Words<'_>,
        input: &[u8],
    ) -> Result<Vec<u8>, Fault> {
        let Ended {
            text,
            status,
            records,
            is_posted,
            content,
        } = served(rt, alloc, &words_of(alloc, words)?, input, &self.disk)?;
        self.records_before = self.records;
        self.records = records;
        self.is_posted = is_posted;
        self.is_kept = *self.disk.bytes.as_slice() == *content.as_slice();
        self.disk.bytes = content;
        self.disk.failing.clear();
        with_status(alloc, text, status)
    }

    // Whether `play` prints the report of a run from its trace.
    fn replayed<W: Threads + Wait + Sync>(
        &mut self,
        rt: &W,
        alloc: Global,
        text: &[u8],
    ) -> Result<Vec<u8>, Fault> {
        let (trace, after) = parts_of(text);
        let (report, _) = parts_of(after);
        let played = self.serve(rt, alloc, Words::new(b"play"), trace)?;
        let is_same = *played.as_slice() == *report;
        Ok(Vec::from_slice(alloc, yes_or_no(is_same))?)
    }

    // `file K`: disk K has the bytes of the input. All other disks are empty.
    fn file(&mut self, alloc: Global, mut words: Words<'_>, text: &[u8]) -> Result<Vec<u8>, Fault> {
        self.disk.number = number_64(words.next()?)?;
        words.end()?;
        self.disk.failing.clear();
        self.disk.bytes = bytes_of(alloc, text)?;
        Ok(Vec::new(alloc))
    }

    // `more N`: that disk has the bytes of the input N times behind its own.
    fn more(&mut self, alloc: Global, mut words: Words<'_>, text: &[u8]) -> Result<Vec<u8>, Fault> {
        let count = number(words.next()?)?;
        words.end()?;
        let bytes = bytes_of(alloc, text)?;
        for _ in 0..count {
            self.disk.bytes.extend_from_slice(&bytes)?;
        }
        Ok(Vec::new(alloc))
    }

    // `fails CALL ..`: these calls of that disk fail in the next run.
    fn fails(&mut self, alloc: Global, words: Words<'_>) -> Result<Vec<u8>, Fault> {
        for call in words.rest()?.split(is_space) {
            self.disk.failing.push(number_64(call)?)?;
        }
        Ok(Vec::new(alloc))
    }

    // The bytes of that disk, sixteen a line.
    fn content(&self, alloc: Global) -> Result<Vec<u8>, Fault> {
        let mut lines = String::new(alloc);
        for bytes in self.disk.bytes.chunks(16) {
            push_hex(alloc, bytes, &mut lines)?;
            lines.push('\n')?;
        }
        Ok(Vec::from_slice(alloc, lines.as_bytes())?)
    }

    fn records_text(&self, alloc: Global) -> Result<Vec<u8>, Fault> {
        let count = self.records;
        let line = format!(in alloc; "{count}")?;
        Ok(Vec::from_slice(alloc, line.as_bytes())?)
    }

    // Whether that disk has more than so many bytes.
    fn longer(&self, alloc: Global, mut words: Words<'_>) -> Result<Vec<u8>, Fault> {
        let count = number(words.next()?)?;
        words.end()?;
        let is_longer = self.disk.bytes.len() > count as usize;
        Ok(Vec::from_slice(alloc, yes_or_no(is_longer))?)
    }
}

impl Subject for Program {
    fn begin(&mut self, alloc: Global) {
        self.disk = Special::none(alloc);
        self.records = 0;
        self.records_before = 0;
        self.is_posted = false;
        self.is_kept = true;
    }

    fn answer<W: Threads + Wait + Sync>(
        &mut self,
        threads: &W,
        alloc: Global,
        request: Request<'_>,
    ) -> Result<String, Fault> {
        let mut text = Vec::from_slice(alloc, request.input)?;
        for stage in request.line.split(is_bar) {
            text = self.stage(threads, alloc, trimmed(stage), &text)?;
        }
        Ok(String::from_utf8_lossy(alloc, &text)?)
    }
}

fn yes_or_no(is: bool) -> &'static [u8] {
    if is { b"yes" } else { b"no" }
}

fn is_bar(byte: &u8) -> bool {
    *byte == b'|'
}

fn is_space(byte: &u8) -> bool {
    *byte == b' '
}

// A stage without the spaces beside its bars.
fn trimmed(stage: &[u8]) -> &[u8] {
    let stage = match stage {
        [b' ', rest @ ..] => rest,
        _ => stage,
    };
    match stage {
        [rest @ .., b' '] => rest,
        _ => stage,
    }
}

// The words of the program; `''` is an empty word.
fn words_of(alloc: Global, words: Words<'_>) -> Result<Vec<String>, Fault> {
    let mut given = Vec::new(alloc);
    if words.has_more() {
        for word in words.rest()?.split(is_space) {
            let word = if *word == *b"''".as_slice() {
                b"".as_slice()
            } else {
                word
            };
            given.push(String::from_utf8_lossy(alloc, word)?)?;
        }
    }
    Ok(given)
}

fn with_status(alloc: Global, text: Vec<u8>, status: u8) -> Result<Vec<u8>, Fault> {
    let mut text = text;
    if status != 0 {
        let line = format!(in alloc; "status {status}")?;
        push_line(line.as_bytes(), &mut text)?;
    }
    Ok(text)
}
