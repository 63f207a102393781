//! A source and a sink in memory that never fail.
ghost use Rattle.std.specs.Prelude.{◌≡◌, ◌++◌, [], IfOk, IfErr, Ok, Some, length, take, drop, min, is_ok, if◌then◌else◌};
ghost use Rattle.gp_edge.specs.declared.refusal.Refused.TheVariants as refused;
ghost use Rattle.gp_edge.specs.Reads.{overlaid};

use crate::refusal::{Failed, Refused};
use crate::sink::Sink;
use crate::source::Source;
use crate::unread::Unread;
use gp_memory::NoMemory;
use std::alloc::Global;
use std::marker::Model;

/// A source in memory that never fails. A contract sees the remaining bytes.
#[derive(Drop)]
pub struct CalmSource {
    unread: Unread,
}

impl Model for CalmSource {
    ghost use Rattle.std.specs.Prelude.{ℕ, List};

    ghost Value = { List ℕ };

    ghost view = { λ s. s.unread };
}

impl CalmSource {
    /// A source with these bytes. `NoMemory` if memory runs out.
    pub fn new(alloc: Global, bytes: &[u8]) -> Result<CalmSource, NoMemory>
        ensures { IfOk result (λ source. source ≡ bytes.now) }
    {
        Ok(CalmSource {
            unread: Unread::new(alloc, bytes)?,
        })
    }
}

impl Source for CalmSource {
    ghost rest = { λ s. Some s };

    ghost faults = { λ s. 0 };

    /// Fills the piece, or moves all remaining bytes if there are fewer.
    fn read(&mut self, into: &mut [u8]) -> Result<usize, Failed>
        ensures count { result ≡ Ok (min (length into.old) (length self.old)) }
        ensures moved { into.new ≡ overlaid (take (length into.old) self.old) into.old }
        ensures rest { self.new ≡ drop (length into.old) self.old }
    {
        Ok(self.unread.move_into(into.len(), into))
    }
}

/// A sink in memory that never fails. It takes whole pieces unless memory runs out. A contract sees
/// what was written.
#[derive(Drop)]
pub struct CalmSink {
    bytes: Vec<u8>,
}

impl Model for CalmSink {
    ghost use Rattle.std.specs.Prelude.{ℕ, List};

    ghost Value = { List ℕ };

    ghost view = { λ s. s.bytes.items };
}

impl CalmSink {
    /// A sink to which nothing was written. It never returns `NoMemory`.
    pub fn new(alloc: Global) -> Result<CalmSink, NoMemory>
        ensures { result ≡ Ok [] }
    {
        Ok(CalmSink {
            bytes: Vec::new(alloc),
        })
    }

    /// What was written.
    pub fn written(&self) -> &[u8]
        ensures { result.now ≡ self.now }
    {
        self.bytes.as_slice()
    }
}

impl Sink for CalmSink {
    ghost written = { λ s. Some s };

    ghost faults = { λ s. 0 };

    /// Appends the whole piece. If memory runs out (`NoMemory`), nothing is appended.
    fn write(&mut self, from: &[u8]) -> Result<usize, Refused>
        ensures whole { IfOk result (λ n. n ≡ length from.now) }
        ensures refused { IfErr result (λ e. e ≡ refused.NoMemory) }
        ensures appended { self.new ≡ (if is_ok result then self.old ++ from.now else self.old) }
    {
        self.bytes.extend_from_slice(from)?;
        Ok(from.len())
    }
}
