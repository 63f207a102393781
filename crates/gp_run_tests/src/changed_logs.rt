//! Runs in which a log is exchanged while its node is down.
use crate::doubles::Plan;
use crate::scripts::{ONE, run_over};
use gp_edge::Idle;
use std::alloc::Global;
use std::sync::Wait;
use std::test::Fail;
use std::thread::Threads;

/// The first call after those that make a log. It begins the first entry.
pub const FIRST_ENTRY: u64 = 3;

/// A log with the limit of `run`. Its one entry is that of an acceptor in round 9, a single round,
/// that has voted nothing.
pub const ROUND_9: &[u8] =
    b"MCGPLOG1\x00\x00\x00\x04\x00\x00\x00\x00\x01\x1b\x00\x00\x00\x11\x00\x00\x00\x00\x09\x00\x00\x00\x00\x00\x00\x00\x00\x00\x00\x00\x00\x00\x00\x00\x00\x00\x00\x00\x00\x00\x00";

// The first entry fails, and then a disk with these bytes is in place.
fn exchanged(bytes: &'static [u8]) -> Plan<'static> {
    Plan {
        failing: &[FIRST_ENTRY],
        exchanged: FIRST_ENTRY + 1,
        bytes,
    }
}

// The bytes of the disk that is in place when acceptor 0 recovers, and what is printed.
static ROWS: [(&[u8], &[u8]); 3] = [
    // an entry that is neither the part before the step nor the one after it
    (ROUND_9, b"log changed\n"),
    // no log, or one with another limit
    (b"", b"not a log: at 0\n"),
    (
        b"MCGPLOG1\x00\x00\x00\x03\x00\x00\x00\x00\x00",
        b"not a log: at 8\n",
    ),
];

fn ends_so<W: Threads + Wait + Sync>(
    rt: &W,
    alloc: Global,
    bytes: &'static [u8],
    text: &[u8],
) -> Result<bool, Fail> {
    let run = run_over(rt, alloc, "run", ONE, &[(0, exchanged(bytes))], &Idle)?;
    Ok(run.ended(8, text) && run.records > 0 && run.faults == 1)
}

#[test]
fn a_log_that_was_exchanged_ends_the_run(rt: HostRuntime) -> Result<(), Fail> {
    for (row, (bytes, text)) in ROWS.iter().enumerate() {
        assert!(rt; ends_so(&rt, rt.alloc(), bytes, text)?, "row {row}");
    }
    Ok(())
}
