//! Runs of the program in memory.
ghost use Rattle.std.specs.Prelude.{◌≡◌, IfOk, length};

use gp_cli::{Ran, serve};
use gp_edge::{CalmSink, CalmSource, Idle, MemDisk};
use std::alloc::Global;
use std::sync::Wait;
use std::test::Fail;
use std::thread::Threads;

/// Twelve empty disks in memory. These calls of one of them fail.
pub fn disks_with(alloc: Global, number: u64, failing: &[u64]) -> Result<Vec<MemDisk>, Fail>
    ensures { IfOk result (λ disks. length disks.items ≡ 12) }
{
    let mut disks = Vec::new(alloc);
    for count in 0..12 {
        let failing = if count == number { failing } else { &[] };
        disks.push(MemDisk::new(alloc, b"", failing)?)?;
    }
    Ok(disks)
}

/// The words of a command.
pub fn owned(alloc: Global, words: &[&str]) -> Result<Vec<String>, Fail> {
    let mut given = Vec::new(alloc);
    for word in words {
        given.push(String::from_str(alloc, word)?)?;
    }
    Ok(given)
}

/// How a command ended over disks in memory, and what it printed.
#[derive(Drop)]
pub struct Finished {
    pub ran: Ran<MemDisk>,
    pub sink: CalmSink,
}

/// The status of a command and what it printed. It owns little, so that tests which drop it are short
/// to prove.
#[derive(Drop)]
pub struct Outcome {
    pub status: u8,
    pub text: Vec<u8>,
}

impl Outcome {
    /// Whether the command ended with this status and printed this.
    pub fn ended(&self, status: u8, text: &[u8]) -> bool {
        self.status == status && *self.text.as_slice() == *text
    }
}

/// The number of a disk, and the calls of it that fail.
pub type Special<'a> = (u64, &'a [u64]);

/// No disk fails.
pub const CALM: Special<'static> = (0, &[]);

/// Runs a command with this input over empty disks, one of which may fail.
pub fn whole_run<W: Threads + Wait + Sync>(
    rt: &W,
    alloc: Global,
    words: &[&str],
    input: &[u8],
    disk: Special<'_>,
) -> Result<Finished, Fail> {
    let (number, failing) = disk;
    let words = owned(alloc, words)?;
    let mut source = CalmSource::new(alloc, input)?;
    let mut sink = CalmSink::new(alloc)?;
    let disks = disks_with(alloc, number, failing)?;
    let ran = serve(rt, alloc, &words, &mut source, &mut sink, disks, &Idle);
    Ok(Finished { ran, sink })
}

/// The outcome of a command over disks that do not fail.
pub fn served<W: Threads + Wait + Sync>(
    rt: &W,
    alloc: Global,
    words: &[&str],
    input: &[u8],
) -> Result<Outcome, Fail> {
    let finished = whole_run(rt, alloc, words, input, CALM)?;
    outcome_of(alloc, &finished)
}

fn outcome_of(alloc: Global, finished: &Finished) -> Result<Outcome, Fail> {
    Ok(Outcome {
        status: finished.ran.status,
        text: Vec::from_slice(alloc, finished.sink.written())?,
    })
}
