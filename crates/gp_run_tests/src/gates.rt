//! The gate that is given to a run: each step passes it, of proposers, in work phases and when the
//! nodes are settled.
use crate::doubles::{CALM, Plan};
use crate::scripts::{EIGHT, ONE, Outcome, Planned, TWO, run_over};
use gp_edge::Gate;
use gp_msg::Node;
use std::alloc::Global;
use std::sync::Wait;
use std::sync::atomic::{AtomicU64, Ordering};
use std::test::Fail;
use std::thread::Threads;

// A gate that counts the steps, and those of proposers.
#[derive(Drop)]
struct Counting {
    steps: AtomicU64,
    offers: AtomicU64,
}

impl Gate for Counting {
    fn at(&self, node: Node, _turn: u64) {
        let _steps = self.steps.fetch_add(1, Ordering::SeqCst);
        if let Node::Proposer(_) = node {
            let _offers = self.offers.fetch_add(1, Ordering::SeqCst);
        }
    }
}

// The disk of coordinator 0 fails in its first step, so that it crashes, and the nodes are settled.
const SETTLED: &[Planned<'static>] = &[(
    7,
    Plan {
        failing: &[3],
        ..CALM
    },
)];

// A subcommand, its script, how many offers that has, the disks, and whether the nodes are settled
// with a single round.
type Row = (
    &'static str,
    &'static [u8],
    u64,
    &'static [Planned<'static>],
    bool,
);

static ROWS: [Row; 5] = [
    ("run", ONE, 1, &[], false),
    ("run", EIGHT, 8, &[], false),
    ("run", TWO, 2, &[], false),
    ("adapt", EIGHT, 8, &[], false),
    ("run", EIGHT, 8, SETTLED, true),
];

// Each step passes the gate once. A step whose disk fails passes it too, and in place of its record
// there is that of the crash.
fn is_passed(run: &Outcome, gate: &Counting, offers: u64) -> bool {
    run.status == 0
        && gate.steps.load(Ordering::SeqCst) == run.records as u64
        && gate.offers.load(Ordering::SeqCst) == offers
}

fn passes<W: Threads + Wait + Sync>(rt: &W, alloc: Global, row: &Row) -> Result<bool, Fail> {
    let (word, script, offers, planned, is_settled) = *row;
    let gate = Counting {
        steps: AtomicU64::new(0),
        offers: AtomicU64::new(0),
    };
    let run = run_over(rt, alloc, word, script, planned, &gate)?;
    let settles = run.count(b"begin c0 1 single") == 1;
    Ok(is_passed(&run, &gate, offers) && settles == is_settled)
}

#[test]
fn each_step_passes_the_gate(rt: HostRuntime) -> Result<(), Fail> {
    for (number, row) in ROWS.iter().enumerate() {
        assert!(rt; passes(&rt, rt.alloc(), row)?, "row {number}");
    }
    Ok(())
}
