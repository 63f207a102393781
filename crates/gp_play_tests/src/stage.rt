//! Runs of the program in memory.
ghost use Rattle.std.specs.Prelude.{◌≡◌, IfOk, length};

use gp_cli::{DISKS, serve};
use gp_edge::{CalmDisk, CalmSink, Idle, Sink, Source};
use std::alloc::Global;
use std::process::Abort;
use std::sync::Wait;
use std::test::Fail;
use std::thread::Threads;

/// Fails the test in which this does not hold.
pub fn holds(rt: &impl Abort, what: Result<bool, Fail>) -> Result<(), Fail> {
    assert!(rt; what?);
    Ok(())
}

// Twelve disks in memory without bytes.
fn disks(alloc: Global) -> Result<Vec<CalmDisk>, Fail>
    ensures { IfOk result (λ disks. length disks.items ≡ 12) }
{
    let mut disks = Vec::new(alloc);
    for _count in 0..DISKS {
        disks.push(CalmDisk::new(alloc, b"")?)?;
    }
    Ok(disks)
}

/// The status with which `play` ends over this source and sink.
pub fn play_over<S: Source, K: Sink>(
    rt: &(impl Threads + Wait + Sync),
    alloc: Global,
    source: &mut S,
    sink: &mut K,
) -> Result<u8, Fail> {
    let words = [String::from_str(alloc, "play")?];
    Ok(serve(rt, alloc, &words, source, sink, disks(alloc)?, &Idle).status)
}

/// Whether `play` ends with this status over a source, and prints this.
pub fn plays_from<S: Source>(
    rt: &(impl Threads + Wait + Sync),
    alloc: Global,
    source: &mut S,
    status: u8,
    prints: &[u8],
) -> Result<bool, Fail> {
    let mut sink = CalmSink::new(alloc)?;
    let ended = play_over(rt, alloc, source, &mut sink)?;
    Ok(ended == status && sink.written() == prints)
}
