//! A source and a sink in memory with chosen calls that fail.
ghost use Rattle.std.specs.Prelude.{◌≡◌, ◌≤◌, IfOk, IfErr, OnOk, Some, false, length, is_ok, is_err};
ghost use Rattle.gp_edge.specs.Calls.{is_to_fail};
ghost use Rattle.gp_edge.specs.Memory.{source_of, given, after_read, sink_of, taken, after_write, refusal};
ghost use Rattle.gp_edge.specs.Faults.{Rose, HasFailed, TakesNothing};
ghost use Rattle.gp_edge.specs.Reads.{GivesNext, overlaid};

use crate::refusal::{Failed, Refused};
use crate::schedule::Schedule;
use crate::sink::Sink;
use crate::source::Source;
use crate::unread::Unread;
use gp_memory::NoMemory;
use std::alloc::Global;
use std::marker::Model;

/// A source in memory with chosen calls that fail, and with a limit on the bytes that one call
/// moves.
///
/// A contract sees the remaining bytes, that limit, and the calls.
#[derive(Drop)]
pub struct MemSource {
    unread: Unread,
    piece: usize,
    schedule: Schedule,
}

impl Model for MemSource {
    ghost use Rattle.std.specs.Prelude.{◌≤◌};
    ghost use Rattle.gp_edge.specs.Memory.{SourceState};

    ghost Value = { SourceState };

    ghost view = { λ s. record { rest = s.unread; piece = s.piece; calls = s.schedule } };

    ghost invariant = { λ s. 1 ≤ s.piece };
}

impl MemSource {
    /// A source with these bytes. A call moves at most `piece` bytes, which is at least 1. The
    /// calls with the numbers in `failing`, counted from 0, fail. `NoMemory` if memory runs out.
    pub fn new(
        alloc: Global,
        bytes: &[u8],
        piece: usize,
        failing: &[u64],
    ) -> Result<MemSource, NoMemory>
        requires { 1 ≤ piece }
        ensures { IfOk result (λ source. source ≡ source_of bytes.now piece failing.now) }
    {
        Ok(MemSource {
            unread: Unread::new(alloc, bytes)?,
            piece,
            schedule: Schedule::new(alloc, failing)?,
        })
    }
}

impl Source for MemSource {
    ghost rest = { λ s. Some s.rest };

    ghost faults = { λ s. s.calls.faults };

    /// Moves as many of the next bytes as the piece and one call have room for. A call that is to
    /// fail returns `Failed` and moves no byte.
    fn read(&mut self, into: &mut [u8]) -> Result<usize, Failed>
        ensures failed { is_err result ≡ is_to_fail self.old.calls }
        ensures count { IfOk result (λ n. n ≡ length (given self.old (length into.old))) }
        ensures moved { into.new ≡ overlaid (given self.old (length into.old)) into.old }
        ensures after { self.new ≡ after_read self.old (length into.old) }
        ensures next { GivesNext (Some self.old.rest) (Some self.new.rest) (length into.old) into.new result }
        ensures never_falls { self.old.calls.faults ≤ self.new.calls.faults }
        ensures steady { OnOk result (self.new.calls.faults ≡ self.old.calls.faults) }
    {
        if self.schedule.call() {
            return Err(Failed);
        }
        Ok(self.unread.move_into(self.piece, into))
    }
}

/// A sink in memory with chosen calls that fail, and with a limit on the bytes that one call takes.
///
/// A contract sees what was written, that limit, and the calls.
#[derive(Drop)]
pub struct MemSink {
    bytes: Vec<u8>,
    piece: usize,
    schedule: Schedule,
}

impl Model for MemSink {
    ghost use Rattle.std.specs.Prelude.{◌≤◌};
    ghost use Rattle.gp_edge.specs.Memory.{SinkState};

    ghost Value = { SinkState };

    ghost view = { λ s. record { written = s.bytes.items; piece = s.piece; calls = s.schedule } };

    ghost invariant = { λ s. 1 ≤ s.piece };
}

impl MemSink {
    /// A sink to which nothing was written. A call takes at most `piece` bytes, which is at least
    /// 1. The calls with the numbers in `failing`, counted from 0, fail. `NoMemory` if memory runs
    /// out.
    pub fn new(alloc: Global, piece: usize, failing: &[u64]) -> Result<MemSink, NoMemory>
        requires { 1 ≤ piece }
        ensures { IfOk result (λ sink. sink ≡ sink_of piece failing.now) }
    {
        Ok(MemSink {
            bytes: Vec::new(alloc),
            piece,
            schedule: Schedule::new(alloc, failing)?,
        })
    }

    /// What was written.
    pub fn written(&self) -> &[u8]
        ensures { result.now ≡ self.now.written }
    {
        self.bytes.as_slice()
    }
}

impl Sink for MemSink {
    ghost written = { λ s. Some s.written };

    ghost faults = { λ s. s.calls.faults };

    /// Appends as many of the first bytes as one call takes. Returns `Failed` if this call is to
    /// fail. Any other call returns `NoMemory` if memory runs out. After both errors nothing was
    /// appended, and the call is counted.
    fn write(&mut self, from: &[u8]) -> Result<usize, Refused>
        ensures accepted { OnOk result (is_to_fail self.old.calls ≡ false) }
        ensures refused { IfErr result (λ e. e ≡ refusal self.old) }
        ensures count { IfOk result (λ n. n ≡ length (taken self.old from.now)) }
        ensures after { self.new ≡ after_write self.old from.now (is_ok result) }
        ensures never_falls { self.old.calls.faults ≤ self.new.calls.faults }
        ensures stalled { TakesNothing from.now result → Rose self.old.calls.faults self.new.calls.faults }
        ensures steady { ¬ HasFailed result → self.new.calls.faults ≡ self.old.calls.faults }
    {
        if self.schedule.call() {
            return Err(Refused::Failed);
        }
        let count = self.piece.min(from.len());
        self.bytes.extend_from_slice(&from[..count])?;
        Ok(count)
    }
}
