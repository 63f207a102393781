//! A source over any reader and a sink over any writer, such as standard input and output. Their
//! contracts say which bytes come from the reader and go to the writer. No clause says what these
//! do with the bytes, or how often they are called. Tests show that each call is one call of the
//! reader or writer.
ghost use Rattle.std.specs.Prelude.{◌≡◌, ◌≤◌, length, None, IfOk, IfErr, OnOk, OnErr};
ghost use Rattle.std.specs.Io.KnownBytes.{ReadConsumes, WriteAppends};
ghost use Rattle.gp_edge.specs.declared.refusal.Refused.TheVariants as refused;
ghost use Rattle.gp_edge.specs.Faults.{one_more, Rose, HasFailed, TakesNothing};

use crate::refusal::{Failed, Refused};
use crate::sink::Sink;
use crate::source::Source;
use std::io::{Read, Write};
use std::marker::Model;

/// A source over a reader. A contract sees the remaining bytes of the reader, if it reveals them,
/// and how many reads have failed.
#[derive(Drop)]
pub struct ReadSource<R: Read> {
    reader: R,
    faults: u64,
}

impl<R: Read> Model for ReadSource<R> {
    ghost use Rattle.gp_edge.specs.Outside.{OutsideState};

    ghost Value = { OutsideState };

    ghost view = { λ s. record { bytes = R.remaining s.reader; faults = s.faults } };
}

impl<R: Read> ReadSource<R> {
    /// A source with no failed read.
    pub fn new(reader: R) -> ReadSource<R>
        ensures { result ≡ record { bytes = R.remaining reader; faults = 0 } }
    {
        ReadSource { reader, faults: 0 }
    }

    /// How many reads of this source have failed, up to 2^64 - 1.
    pub fn faults(&self) -> u64
        ensures { result ≡ self.now.faults }
    {
        self.faults
    }
}

impl<R: Read> Source for ReadSource<R> {
    ghost rest = { λ s. None };

    ghost faults = { λ s. s.faults };

    /// Reads from the reader. `Failed` means that the read failed, and it is counted. A test shows
    /// that the reader is called once.
    fn read(&mut self, into: &mut [u8]) -> Result<usize, Failed>
        ensures within { IfOk result (λ n. n ≤ length into.old) }
        ensures bytes { ReadConsumes self.old.bytes self.new.bytes result into.new }
        ensures never_falls { self.old.faults ≤ self.new.faults }
        ensures failed { OnErr result (Rose self.old.faults self.new.faults) }
        ensures counted { OnErr result (self.new.faults ≡ one_more self.old.faults) }
        ensures steady { OnOk result (self.new.faults ≡ self.old.faults) }
    {
        match self.reader.read(into) {
            Ok(count) => Ok(count),
            Err(_) => {
                self.faults = self.faults.saturating_add(1);
                Err(Failed)
            }
        }
    }
}

/// A sink over a writer. Nothing flushes the writer, so it should not buffer. A contract sees the
/// bytes that the writer holds, if it reveals them, and how many writes have failed or have taken
/// nothing of a piece that is not empty.
#[derive(Drop)]
pub struct WriteSink<W: Write> {
    writer: W,
    faults: u64,
}

impl<W: Write> Model for WriteSink<W> {
    ghost use Rattle.gp_edge.specs.Outside.{OutsideState};

    ghost Value = { OutsideState };

    ghost view = { λ s. record { bytes = W.contents s.writer; faults = s.faults } };
}

impl<W: Write> WriteSink<W> {
    /// A sink with no failed write.
    pub fn new(writer: W) -> WriteSink<W>
        ensures { result ≡ record { bytes = W.contents writer; faults = 0 } }
    {
        WriteSink { writer, faults: 0 }
    }

    /// How many writes of this sink have failed, or have taken nothing of a piece that is not
    /// empty, up to 2^64 - 1.
    pub fn faults(&self) -> u64
        ensures { result ≡ self.now.faults }
    {
        self.faults
    }
}

impl<W: Write> Sink for WriteSink<W> {
    ghost written = { λ s. None };

    ghost faults = { λ s. s.faults };

    /// Writes to the writer. `Failed` means that the write failed, and it is counted; `NoMemory` is
    /// never returned. A test shows that the writer is called once.
    fn write(&mut self, from: &[u8]) -> Result<usize, Refused>
        ensures within { IfOk result (λ n. n ≤ length from.now) }
        ensures bytes { WriteAppends self.old.bytes self.new.bytes result from.now }
        ensures never_falls { self.old.faults ≤ self.new.faults }
        ensures refused { IfErr result (λ e. e ≡ refused.Failed) }
        ensures failed { OnErr result (Rose self.old.faults self.new.faults) }
        ensures stalled { TakesNothing from.now result → Rose self.old.faults self.new.faults }
        ensures counted { OnErr result (self.new.faults ≡ one_more self.old.faults) }
        ensures counted_stall { TakesNothing from.now result → self.new.faults ≡ one_more self.old.faults }
        ensures steady { ¬ HasFailed result → ¬ TakesNothing from.now result → self.new.faults ≡ self.old.faults }
    {
        match self.writer.write(from) {
            Ok(0) if !from.is_empty() => {
                self.faults = self.faults.saturating_add(1);
                Ok(0)
            }
            Ok(count) => Ok(count),
            Err(_) => {
                self.faults = self.faults.saturating_add(1);
                Err(Refused::Failed)
            }
        }
    }
}
