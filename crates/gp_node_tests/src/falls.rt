//! A coordinator whose disk fails in its first move, so that it crashes.
ghost use Rattle.std.specs.Prelude.{◌≡◌};
ghost use Rattle.gp_msg.specs.declared.node.Node.TheVariants.{Coordinator};
ghost use Rattle.gp_node_tests.specs.Alone.{IsAlone, IsThere};

use crate::alone::{Alone, make_alone};
use gp_edge::Gate;
use gp_msg::{Event, Kept, Node, Record};
use gp_node::{Move, Posted, RiseFault, StepFault, finish};
use gp_round::{Config, Mode, Round};
use std::alloc::Global;
use std::sync::Wait;
use std::sync::atomic::{AtomicU64, Ordering};
use std::test::Fail;

// The round that it begins.
const ROUND: Round = Round {
    count: 1,
    mode: Mode::Single,
    lead: 0,
};

// The number that the step is given.
const TURN: u64 = 9;

// A gate that counts its calls and keeps the last number.
#[derive(Drop)]
struct Counting {
    calls: AtomicU64,
    turn: AtomicU64,
}

impl Counting {
    fn new() -> Counting {
        Counting {
            calls: AtomicU64::new(0),
            turn: AtomicU64::new(0),
        }
    }

    fn was_called_once(&self) -> bool {
        self.calls.load(Ordering::SeqCst) == 1 && self.turn.load(Ordering::SeqCst) == TURN
    }
}

impl Gate for Counting {
    fn at(&self, _node: Node, turn: u64) {
        let _before = self.calls.fetch_add(1, Ordering::SeqCst);
        self.turn.store(turn, Ordering::SeqCst);
    }
}

// The call of the disk that fails, and whether the move is kept. The disk's calls 0 to 2 are those of the creation; then the
// entry is written and synced, and the gate before it.
static FAILING: [(u64, bool); 4] = [(3, false), (4, false), (5, false), (6, true)];

#[test]
fn rise_posts_a_fall(rt: HostRuntime) -> Result<(), Fail> {
    for (failing, kept) in &FAILING {
        assert!(rt; falls_and_rises(&rt, rt.alloc(), &Counting::new(), *failing, *kept)?);
    }
    Ok(())
}

// Whether the cell falls if the call of its disk with this number fails in the move, and rises again with the move or
// without it.
fn falls_and_rises<R: Wait>(
    rt: &R,
    alloc: Global,
    gate: &Counting,
    failing: u64,
    keeps: bool,
) -> Result<bool, Fail> {
    let config = Config::new(3, 1, 1).or(Err("no configuration"))?;
    let mut alone = make_alone(alloc, config, Node::Coordinator(0), &[failing])?;
    let is_right = falls(rt, config, &mut alone, gate) && rises(rt, config, &mut alone, keeps);
    let posted = posted_by(alloc, config, alone)?;
    Ok(is_right && are_of_fall(posted.records(), keeps))
}

// Whether the cell falls in its first move, and the gate was called once.
fn falls<R: Wait>(rt: &R, config: Config, alone: &mut Alone, gate: &Counting) -> bool
    requires alone { IsAlone config (Coordinator 0) alone.old.wire alone.old.cell }
    requires one { config.coordinators ≡ 1 }
    ensures { IsThere config (Coordinator 0) alone.new.wire alone.new.cell }
{
    let Alone { wire, cell } = alone;
    let is_fault = is_disk_fault(cell.step(rt, wire, Move::Begin(ROUND), gate, TURN));
    is_fault && gate.was_called_once()
}

// Whether the cell is down, and rises with the move or without it.
fn rises<R: Wait>(rt: &R, config: Config, alone: &mut Alone, keeps: bool) -> bool
    requires { IsThere config (Coordinator 0) alone.old.wire alone.old.cell }
    ensures { IsThere config (Coordinator 0) alone.new.wire alone.new.cell }
{
    let Alone { wire, cell } = alone;
    if !cell.is_down() {
        return false;
    }
    let is_risen = is_risen(cell.rise(rt, wire)) && !cell.is_down();
    is_risen && cell.posted() == 1 && cell.durable().is_some() == keeps
}

fn is_disk_fault(outcome: Result<u64, StepFault>) -> bool {
    matches!(outcome, Err(StepFault::Disk))
}

// Whether the node has risen, and there is no message.
fn is_risen(outcome: Result<u64, RiseFault>) -> bool {
    matches!(outcome, Ok(0))
}

// What the node posted.
fn posted_by(alloc: Global, config: Config, alone: Alone) -> Result<Posted, Fail>
    requires { IsThere config (Coordinator 0) alone.wire alone.cell }
{
    let Alone { wire, cell } = alone;
    let cells = vec![in alloc; cell]?;
    match finish(alloc, wire, cells) {
        Ok(finished) => Ok(finished.posted),
        Err(_) => Err(Fail::from("no end")),
    }
}

// Whether there is one record, of a crash that keeps the move or nothing.
fn are_of_fall(records: &[Record], keeps: bool) -> bool {
    match records {
        [record] => match &record.event {
            Event::Fall { kept, .. } if keeps => *kept == Some(Kept::Begin(ROUND)),
            Event::Fall { kept, .. } => kept.is_none(),
            _ => false,
        },
        _ => false,
    }
}
