//! Runs of the program in memory.
ghost use Rattle.std.specs.Prelude.{◌≡◌, IfOk, length};

use gp_cases::Fault;
use gp_cli::{Trail, serve};
use gp_edge::{CalmSink, CalmSource, Idle, MemDisk};
use std::alloc::Global;
use std::sync::Wait;
use std::thread::Threads;

/// The disk that has bytes, and the calls of it that fail. The other disks are empty and do not
/// fail.
#[derive(Drop)]
pub struct Special {
    pub number: u64,
    pub bytes: Vec<u8>,
    pub failing: Vec<u64>,
}

impl Special {
    /// Disk 0, which is empty and does not fail.
    pub fn none(alloc: Global) -> Special {
        Special {
            number: 0,
            bytes: Vec::new(alloc),
            failing: Vec::new(alloc),
        }
    }
}

/// How a run of the program ended.
#[derive(Drop)]
pub struct Ended {
    pub text: Vec<u8>,
    pub status: u8,
    /// How many records the run has.
    pub records: usize,
    /// Whether nodes in threads posted them.
    pub is_posted: bool,
    /// What the special disk holds.
    pub content: Vec<u8>,
}

// Twelve disks in memory. One of them has these bytes, and these calls of it fail.
fn disks_with(
    alloc: Global,
    number: u64,
    bytes: &[u8],
    failing: &[u64],
) -> Result<Vec<MemDisk>, Fault>
    ensures { IfOk result (λ disks. length disks.items ≡ 12) }
{
    let mut disks = Vec::new(alloc);
    for count in 0..12 {
        let disk = if count == number {
            MemDisk::new(alloc, bytes, failing)?
        } else {
            MemDisk::new(alloc, b"", &[])?
        };
        disks.push(disk)?;
    }
    Ok(disks)
}

/// Runs the program with these words and this input.
pub fn served<W: Threads + Wait + Sync>(
    rt: &W,
    alloc: Global,
    words: &[String],
    input: &[u8],
    disk: &Special,
) -> Result<Ended, Fault> {
    let mut source = CalmSource::new(alloc, input)?;
    let mut sink = CalmSink::new(alloc)?;
    let disks = disks_with(alloc, disk.number, &disk.bytes, &disk.failing)?;
    let ran = serve(rt, alloc, words, &mut source, &mut sink, disks, &Idle);
    let is_posted = match &ran.trail {
        Trail::Posted(_) => true,
        Trail::Folded(_) => false,
    };
    let content = match ran.disks.get(disk.number as usize) {
        Some(disk) => Vec::from_slice(alloc, disk.content())?,
        None => Vec::new(alloc),
    };
    Ok(Ended {
        text: Vec::from_slice(alloc, sink.written())?,
        status: ran.status,
        records: ran.trail.records().len(),
        is_posted,
        content,
    })
}
