//! What the commands of a case gave, and how it compares with what is wanted.
use crate::fault::Fault;
use std::alloc::Global;

// A line that a command gave.
#[derive(Drop)]
struct Given {
    // The place of the command in the case.
    command: usize,
    line: String,
}

/// The lines that the commands of a case gave, and how many of them were wanted.
#[derive(Drop)]
pub struct Answers {
    alloc: Global,
    commands: Vec<String>,
    given: Vec<Given>,
    wanted: usize,
    /// Whether a line differs from the one that is wanted.
    pub differs: bool,
}

impl Answers {
    pub fn new(alloc: Global) -> Answers {
        Answers {
            alloc,
            commands: Vec::new(alloc),
            given: Vec::new(alloc),
            wanted: 0,
            differs: false,
        }
    }

    /// Forgets the case.
    pub fn clear(&mut self) {
        self.commands.clear();
        self.given.clear();
        self.wanted = 0;
        self.differs = false;
    }

    /// Appends the lines of what a command gave.
    pub fn push(&mut self, command: &[u8], text: &str) -> Result<(), Fault> {
        let place = self.commands.len();
        self.commands
            .push(String::from_utf8_lossy(self.alloc, command)?)?;
        let bytes = match text.as_bytes() {
            [] => return Ok(()),
            [lines @ .., b'\n'] => lines,
            bytes => bytes,
        };
        for line in bytes.split(|byte| *byte == b'\n') {
            let line = given_line(self.alloc, line)?;
            self.given.push(Given {
                command: place,
                line,
            })?;
        }
        Ok(())
    }

    /// What differs at a wanted line. After the first difference of a case nothing does.
    pub fn compare(&mut self, line: &[u8]) -> Result<Option<String>, Fault> {
        let place = self.wanted;
        self.wanted = self.wanted.saturating_add(1);
        if self.differs || self.is_given(place, line) {
            return Ok(None);
        }
        let wanted = String::from_utf8_lossy(self.alloc, line)?;
        Ok(Some(self.difference(wanted.as_str(), place)?))
    }

    /// The first line that was given beyond the wanted ones.
    pub fn surplus(&mut self) -> Result<Option<String>, Fault> {
        if self.differs || self.wanted >= self.given.len() {
            return Ok(None);
        }
        Ok(Some(self.difference("no more", self.wanted)?))
    }

    fn is_given(&self, place: usize, line: &[u8]) -> bool {
        match self.given.get(place) {
            Some(given) => *given.line.as_bytes() == *line,
            None => false,
        }
    }

    fn difference(&mut self, wanted: &str, place: usize) -> Result<String, Fault> {
        self.differs = true;
        let command = self.command_at(place);
        let line = self.line_at(place);
        Ok(format!(in self.alloc; "{command}\n  wanted {wanted}\n  got    {line}")?)
    }

    // The command that gave a line.
    fn command_at(&self, place: usize) -> &str {
        match self.given.get(place) {
            Some(given) => self.command(given.command),
            None => "the end of the case",
        }
    }

    fn line_at(&self, place: usize) -> &str {
        match self.given.get(place) {
            Some(given) => given.line.as_str(),
            None => "nothing",
        }
    }

    fn command(&self, place: usize) -> &str {
        match self.commands.get(place) {
            Some(command) => command.as_str(),
            None => "",
        }
    }
}

// A line as it is wanted: one that is empty or begins with `#` has a bar before it.
fn given_line(alloc: Global, line: &[u8]) -> Result<String, Fault> {
    let text = String::from_utf8_lossy(alloc, line)?;
    if line.is_empty() || line.starts_with(b"#") {
        return Ok(format!(in alloc; "|{text}")?);
    }
    Ok(text)
}
