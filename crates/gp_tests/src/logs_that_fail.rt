//! Logs on a disk with one call that fails.
use crate::parts_of_logs::{append, part, renew, votes};
use gp_edge::MemDisk;
use gp_vlog::{AppendFault, Log, OpenFault};
use std::alloc::Global;
use std::test::Fail;

// Whether the log, opened again, has the entries from before or after the call that failed. `done`
// is how many of two appends and a renewal had succeeded before.
fn is_before_or_after(log: &mut Log<MemDisk>, done: usize) -> bool {
    if log.is_ready() {
        return false;
    }
    if log.reopen().is_err() || !log.is_ready() {
        return false;
    }
    // the number of entries, and of the commands of the last vote
    let last = if log.count() == 0 {
        None
    } else {
        votes(log.entry(log.count() - 1))
    };
    let stands = (log.count(), last);
    match done {
        0 => stands == (0, None) || stands == (1, Some(0)),
        1 => stands == (1, Some(0)) || stands == (2, Some(1)),
        _ => stands == (2, Some(1)) || stands == (1, Some(2)),
    }
}

// Makes a log, appends twice and renews it, while call `k` of the disk fails: whether no call failed.
fn runs_whole(alloc: Global, k: u64) -> Result<bool, Fail> {
    match created(alloc, k)? {
        Ok(mut log) => writes_whole(alloc, &mut log),
        Err(OpenFault::Disk) => Ok(false),
        Err(_) => Err(Fail::from("another fault")),
    }
}

fn created(alloc: Global, k: u64) -> Result<Result<Log<MemDisk>, OpenFault>, Fail> {
    let disk = MemDisk::new(alloc, b"", &[k])?;
    Ok(Log::create(alloc, disk, 128).map_err(|unopened| unopened.why))
}

fn writes_whole(alloc: Global, log: &mut Log<MemDisk>) -> Result<bool, Fail> {
    for done in 0..3 {
        match write(alloc, log, done) {
            Ok(()) => {}
            Err(AppendFault::Disk) if is_before_or_after(log, done) => return Ok(false),
            Err(_) => return Err(Fail::from("another log")),
        }
    }
    Ok(log.count() == 1)
}

// The outcome of the first or the second append, or of the renewal after them.
fn write(alloc: Global, log: &mut Log<MemDisk>, done: usize) -> Result<(), AppendFault> {
    match part(alloc, done) {
        Some(entry) if done < 2 => append(log, &entry),
        Some(entry) => renew(log, &entry),
        None => Err(AppendFault::NoMemory),
    }
}

#[test]
fn a_log_whose_disk_fails_at_any_call_is_as_before_or_after(rt: HostRuntime) -> Result<(), Fail> {
    for k in 0..15 {
        assert!(rt; !runs_whole(rt.alloc(), k)?, "{k}");
    }
    assert!(rt; runs_whole(rt.alloc(), 15)?);
    Ok(())
}
