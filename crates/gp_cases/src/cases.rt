//! A file of cases, line by line.
use crate::answers::Answers;
use crate::fault::Fault;
use crate::letters::Letters;
use crate::repeat::Repeat;
use crate::subject::{Request, Subject};
use crate::words::Words;
use std::alloc::Global;
use std::sync::Wait;
use std::thread::Threads;

// What the next line is read as.
#[derive(Clone, Copy, PartialEq, Eq)]
enum Place {
    // Between cases.
    Between,
    // A command of a case, or an input line of it.
    Commands,
    // A line that is wanted.
    Wanted,
}

// The command that was read last. It runs once its input lines are read.
#[derive(Drop)]
struct Waiting {
    number: usize,
    line: Vec<u8>,
    input: Vec<u8>,
}

/// The state of a file that is being read.
#[derive(Drop)]
pub struct Cases {
    alloc: Global,
    letters: Letters,
    place: Place,
    waiting: Option<Waiting>,
    answers: Answers,
    // How many lines were read.
    number: usize,
    /// The number of the line that was read or run last.
    pub at: usize,
    /// How many cases there were, and how many of them differ.
    pub count: usize,
    pub wrong: usize,
}

impl Cases {
    pub fn new(alloc: Global) -> Cases {
        Cases {
            alloc,
            letters: Letters::new(alloc),
            place: Place::Between,
            waiting: None,
            answers: Answers::new(alloc),
            number: 0,
            at: 0,
            count: 0,
            wrong: 0,
        }
    }

    /// Reads a line, and returns what differs there.
    pub fn line<W: Threads + Wait + Sync, S: Subject>(
        &mut self,
        threads: &W,
        subject: &mut S,
        line: &[u8],
    ) -> Result<Option<String>, Fault> {
        self.number = self.number.saturating_add(1);
        self.at = self.number;
        if line.starts_with(b"#") {
            return Ok(None);
        }
        match Repeat::of(line)? {
            Some(repeat) => self.repeated(threads, subject, repeat),
            None => self.plain(threads, subject, line),
        }
    }

    // Reads the lines that one line stands for. At most one of them differs.
    fn repeated<W: Threads + Wait + Sync, S: Subject>(
        &mut self,
        threads: &W,
        subject: &mut S,
        repeat: Repeat<'_>,
    ) -> Result<Option<String>, Fault> {
        let mut wrong = None;
        for n in repeat.first..=repeat.last {
            let line = repeat.line(self.alloc, n)?;
            let found = self.plain(threads, subject, &line)?;
            if found.is_some() {
                wrong = found;
            }
        }
        Ok(wrong)
    }

    fn plain<W: Threads + Wait + Sync, S: Subject>(
        &mut self,
        threads: &W,
        subject: &mut S,
        line: &[u8],
    ) -> Result<Option<String>, Fault> {
        if line.is_empty() {
            return self.close();
        }
        if self.place == Place::Wanted {
            return self.compare(line);
        }
        if let Some(input) = line.strip_prefix(b"  ") {
            self.input(input)?;
        } else if let Some(definition) = line.strip_prefix(b"let ") {
            self.run_waiting(threads, subject)?;
            self.letters.define(self.alloc, Words::new(definition))?;
        } else if *line == *b"----".as_slice() {
            self.end_commands(threads, subject)?;
        } else {
            self.command(threads, subject, line)?;
        }
        Ok(None)
    }

    /// Ends the case, if there is one, and returns what it lacks.
    pub fn close(&mut self) -> Result<Option<String>, Fault> {
        match self.place {
            Place::Between => return Ok(None),
            Place::Commands => return Err(Fault::Unread),
            Place::Wanted => {}
        }
        let surplus = self.answers.surplus();
        if self.answers.differs {
            self.wrong = self.wrong.saturating_add(1);
        }
        self.count = self.count.saturating_add(1);
        self.place = Place::Between;
        self.answers.clear();
        surplus
    }

    fn compare(&mut self, line: &[u8]) -> Result<Option<String>, Fault> {
        self.answers.compare(line)
    }

    fn command<W: Threads + Wait + Sync, S: Subject>(
        &mut self,
        threads: &W,
        subject: &mut S,
        line: &[u8],
    ) -> Result<(), Fault> {
        self.run_waiting(threads, subject)?;
        if self.place == Place::Between {
            subject.begin(self.alloc);
        }
        let mut copy = Vec::new(self.alloc);
        copy.extend_from_slice(line)?;
        self.place = Place::Commands;
        self.waiting = Some(Waiting {
            number: self.number,
            line: copy,
            input: Vec::new(self.alloc),
        });
        Ok(())
    }

    // Appends an input line, without what begins with two spaces and `#`.
    fn input(&mut self, line: &[u8]) -> Result<(), Fault> {
        let Some(waiting) = &mut self.waiting else {
            return Err(Fault::Unread);
        };
        waiting.input.extend_from_slice(without_note(line))?;
        waiting.input.push(b'\n')?;
        Ok(())
    }

    fn end_commands<W: Threads + Wait + Sync, S: Subject>(
        &mut self,
        threads: &W,
        subject: &mut S,
    ) -> Result<(), Fault> {
        if self.place != Place::Commands {
            return Err(Fault::Unread);
        }
        self.run_waiting(threads, subject)?;
        self.place = Place::Wanted;
        Ok(())
    }

    // Runs the command that was read last.
    fn run_waiting<W: Threads + Wait + Sync, S: Subject>(
        &mut self,
        threads: &W,
        subject: &mut S,
    ) -> Result<(), Fault> {
        let Some(waiting) = self.waiting.take() else {
            return Ok(());
        };
        self.at = waiting.number;
        let text = self.answer(threads, subject, &waiting)?;
        self.at = self.number;
        self.answers.push(&waiting.line, text.as_str())
    }

    // What the command gives; of `size COMMAND` how much the command gives.
    fn answer<W: Threads + Wait + Sync, S: Subject>(
        &self,
        threads: &W,
        subject: &mut S,
        waiting: &Waiting,
    ) -> Result<String, Fault> {
        let (line, is_measured) = match waiting.line.strip_prefix(b"size ") {
            Some(measured) => (measured, true),
            None => (waiting.line.as_slice(), false),
        };
        let request = Request {
            letters: &self.letters,
            line,
            input: &waiting.input,
        };
        let text = subject.answer(threads, self.alloc, request)?;
        if is_measured {
            return size_of(self.alloc, text.as_str());
        }
        Ok(text)
    }
}

// A line without a note at its end: two or more spaces, `#` and what follows.
fn without_note(line: &[u8]) -> &[u8] {
    let Some(place) = line
        .windows(3)
        .position(|piece| *piece == *b"  #".as_slice())
    else {
        return line;
    };
    // what stands before the spaces
    let mut end = 0usize;
    for (at, byte) in line.iter().enumerate() {
        if at < place && *byte != b' ' {
            end = at.saturating_add(1);
        }
    }
    match line.get(..end) {
        Some(kept) => kept,
        None => line,
    }
}

// How many lines and bytes a text has.
fn size_of(alloc: Global, text: &str) -> Result<String, Fault> {
    let bytes = text.len();
    let ends = text
        .as_bytes()
        .iter()
        .filter(|byte| **byte == b'\n')
        .count();
    let lines = if bytes == 0 || text.ends_with("\n") {
        ends
    } else {
        ends.saturating_add(1)
    };
    Ok(format!(in alloc; "{lines} lines, {bytes} bytes")?)
}
