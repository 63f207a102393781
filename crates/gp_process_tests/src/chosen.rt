//! The runtime of a process with other words and another input.
use std::alloc::{Allocator, Global};
use std::env::FillError;
use std::fmt::Display;
use std::io::{self, BufRead, Lines};
use std::rt::Env;
use std::sync::Wait;
use std::thread::Threads;

/// A runtime with these words, which single spaces separate, and this input. The output and the
/// memory are those of `rt`, and the threads are those of `wait`. It is no `Eprint`, so nothing can
/// write to standard error through it.
#[derive(Drop)]
pub struct Chosen<'a, W> {
    pub rt: HostRuntime,
    pub wait: &'a W,
    pub words: &'a [u8],
    pub input: &'a [u8],
    /// Whether the output is written.
    pub is_shown: bool,
}

impl<'a, W: Threads> Threads for Chosen<'a, W> {}

impl<'a, W: Wait> Wait for Chosen<'a, W> {}

impl<'a, W> Alloc for Chosen<'a, W> {
    type A = Global;

    fn alloc(&self) -> Global {
        self.rt.alloc()
    }
}

impl<'a, W> Env for Chosen<'a, W> {
    fn arg(&self, i: usize, buf: &mut [u8]) -> Result<usize, FillError> {
        match self.words.split(|byte| *byte == b' ').nth(i) {
            None => Err(FillError::NotPresent),
            Some(word) if word.len() > buf.len() => Err(FillError::TooLong),
            Some(word) => {
                buf[..word.len()].copy_from_slice(word);
                Ok(word.len())
            }
        }
    }

    fn var(&self, _name: &str, _buf: &mut [u8]) -> Result<usize, FillError> {
        Err(FillError::NotPresent)
    }

    fn var_at(&self, _i: usize, _buf: &mut [u8]) -> Result<usize, FillError> {
        Err(FillError::NotPresent)
    }
}

impl<'a, W> Input for Chosen<'a, W> {
    type Reader = &'a [u8];

    fn read_line<A: Allocator + Clone>(&self, buf: &mut String<A>) -> io::Result<usize> {
        let mut reader = self.input;
        reader.read_line(buf)
    }

    fn lines<A: Allocator>(&self, alloc: A) -> Lines<&'a [u8], A> {
        self.input.lines(alloc)
    }

    fn reader(&self) -> &'a [u8] {
        self.input
    }
}

impl<'a, W> Print for Chosen<'a, W> {
    fn print<D: Display + Drop>(&self, value: D) -> io::Result<()> {
        if self.is_shown {
            self.rt.print(value)
        } else {
            Ok(())
        }
    }

    fn println<D: Display + Drop>(&self, value: D) -> io::Result<()> {
        if self.is_shown {
            self.rt.println(value)
        } else {
            Ok(())
        }
    }

    fn write_all(&self, bytes: &[u8]) -> io::Result<()> {
        if self.is_shown {
            self.rt.write_all(bytes)
        } else {
            Ok(())
        }
    }
}
