//! Runs in which one call of a disk fails.
use crate::doubles::{CALM, Plan};
use crate::scripts::{EIGHT, Outcome, run_over};
use gp_edge::Idle;
use std::alloc::Global;
use std::sync::Wait;
use std::test::Fail;
use std::thread::Threads;

// The calls that make a log: a cut, a write and a sync.
const MAKING: u64 = 3;

const LAST_CALL: u64 = 40;

// The outcome of a run in which this call of the disk of acceptor 0 fails, if it comes.
fn run_with<W: Threads + Wait + Sync>(rt: &W, alloc: Global, call: u64) -> Result<Outcome, Fail> {
    let failing = [call];
    let plan = Plan {
        failing: &failing,
        ..CALM
    };
    run_over(rt, alloc, "run", EIGHT, &[(0, plan)], &Idle)
}

// A run whose disk fails while its log is made ends there. In any other run the acceptor crashes
// once if the call came, and does not crash if it did not; then all is learned.
fn holds(run: &Outcome, call: u64) -> bool {
    if call < MAKING {
        run.ended(6, b"disk fault\n") && run.faults == 1 && run.records == 0
    } else {
        run.status == 0 && run.faults <= 1 && run.count(b"fall a0") == run.faults
    }
}

#[test]
fn one_failing_call_ends_the_run_or_lets_the_acceptor_crash_once(
    rt: HostRuntime,
) -> Result<(), Fail> {
    for call in 0..=LAST_CALL {
        let run = run_with(&rt, rt.alloc(), call)?;
        assert!(rt; holds(&run, call), "call {call}");
    }
    Ok(())
}
