//! What is asked of a subject.
use crate::fault::Fault;
use crate::letters::Letters;
use crate::words::Words;
use std::alloc::Global;
use std::sync::Wait;
use std::thread::Threads;

/// A command of a case, with what it is given.
#[derive(Clone, Copy)]
pub struct Request<'a> {
    /// The letters that the file has defined up to here.
    pub letters: &'a Letters,
    /// The line of the command.
    pub line: &'a [u8],
    /// The input lines below it, each with a line feed at its end and without its indent.
    pub input: &'a [u8],
}

impl<'a> Request<'a> {
    /// The words of the command.
    pub fn words(&self) -> Words<'a> {
        Words::new(self.line)
    }
}

/// What the commands of a file are asked of. Its state lasts through the file.
pub trait Subject {
    ghost use Rattle.std.specs.Thread.{IsSync};

    /// A case begins. Its first command follows.
    fn begin(&mut self, _alloc: Global) {}

    /// The lines that a command gives, separated by line feeds. A line feed at the end is allowed,
    /// and an empty text stands for no line. Nodes run in `threads`.
    ///
    /// `Unread` if the command is not spelled as its first word wants it.
    fn answer<W: Threads + Wait + Sync>(
        &mut self,
        threads: &W,
        alloc: Global,
        request: Request<'_>,
    ) -> Result<String, Fault>
        requires { IsSync W.row };
}
