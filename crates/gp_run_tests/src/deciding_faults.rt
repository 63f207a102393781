//! Runs in which two nodes have faults in one phase: one of the faults decides what is printed.
use crate::changed_logs::{FIRST_ENTRY, ROUND_9};
use crate::doubles::{CALM, Plan};
use crate::scripts::{ONE, run_over};
use gp_edge::Gate;
use gp_msg::Node;
use std::alloc::Global;
use std::sync::Wait;
use std::sync::atomic::{AtomicU64, Ordering};
use std::test::Fail;
use std::thread::{self, Threads};

// How often the leader looks whether the acceptors have taken the offer, and how often it yields
// after that, so that they end their phase before the first round begins.
const LOOKS: u32 = 200_000;

const YIELDS: u32 = 5_000;

// A gate that holds the leader in its first step. So both acceptors take the beginning of the first
// round in the second phase, and their disks fail in that phase.
#[derive(Drop)]
struct Holding {
    // how many steps of acceptors 0 and 1 came
    taken: AtomicU64,
}

impl Holding {
    fn hold(&self) {
        for _ in 0..LOOKS {
            if self.taken.load(Ordering::SeqCst) >= 2 {
                break;
            }
            thread::yield_now();
        }
        for _ in 0..YIELDS {
            thread::yield_now();
        }
    }
}

impl Gate for Holding {
    fn at(&self, node: Node, turn: u64) {
        match node {
            Node::Acceptor(0) | Node::Acceptor(1) => {
                let _before = self.taken.fetch_add(1, Ordering::SeqCst);
            }
            Node::Coordinator(_) if turn == 0 => self.hold(),
            _ => {}
        }
    }
}

// The disk fails, and fails again when its node recovers.
const FAILS_TWICE: Plan<'static> = Plan {
    failing: &[FIRST_ENTRY, FIRST_ENTRY + 1],
    ..CALM
};

// The first entry fails, and then another disk is in place: one with another log, an empty one, or one
// whose bytes are no log from place 5 on.
const CHANGED: Plan<'static> = Plan {
    failing: &[FIRST_ENTRY],
    exchanged: FIRST_ENTRY + 1,
    bytes: ROUND_9,
};

const EMPTY: Plan<'static> = Plan {
    bytes: b"",
    ..CHANGED
};

const MISSPELLED: Plan<'static> = Plan {
    bytes: b"MCGPLogs",
    ..CHANGED
};

// What happens to the disks of acceptors 0 and 1, the status, and what is printed. A failed disk
// comes before bytes that are no log, and these before a changed log. Of two faults of one kind, that
// of the node with the lower number decides.
static ROWS: [(Plan<'static>, Plan<'static>, u8, &[u8]); 6] = [
    (FAILS_TWICE, CHANGED, 6, b"disk fault\n"),
    (CHANGED, FAILS_TWICE, 6, b"disk fault\n"),
    (EMPTY, FAILS_TWICE, 6, b"disk fault\n"),
    (CHANGED, EMPTY, 8, b"not a log: at 0\n"),
    (MISSPELLED, EMPTY, 8, b"not a log: at 5\n"),
    (EMPTY, MISSPELLED, 8, b"not a log: at 0\n"),
];

fn ends_so<W: Threads + Wait + Sync>(
    rt: &W,
    alloc: Global,
    row: &(Plan<'static>, Plan<'static>, u8, &[u8]),
) -> Result<bool, Fail> {
    let (first, second, status, text) = *row;
    let gate = Holding {
        taken: AtomicU64::new(0),
    };
    let run = run_over(rt, alloc, "run", ONE, &[(0, first), (1, second)], &gate)?;
    Ok(run.ended(status, text))
}

#[test]
fn the_first_fault_of_the_lowest_rank_is_printed(rt: HostRuntime) -> Result<(), Fail> {
    for (number, row) in ROWS.iter().enumerate() {
        assert!(rt; ends_so(&rt, rt.alloc(), row)?, "row {number}");
    }
    Ok(())
}
