//! Calls of a cell, each once, with enough memory.
ghost use Rattle.std.specs.Prelude.{◌≡◌};
ghost use Rattle.gp_msg.specs.declared.node.Node.TheVariants.{Coordinator};
ghost use Rattle.gp_node_tests.specs.Alone.{IsAlone};

use crate::alone::{Alone, make_alone};
use crate::outcome::holds;
use gp_command::NoMemory;
use gp_edge::{Idle, MemDisk};
use gp_msg::{Event, Msg, MsgKind, Node};
use gp_node::{Cell, Move, StepFault};
use gp_round::{Config, Mode, Round};
use std::alloc::Global;
use std::sync::Wait;
use std::test::Fail;

// The round that the coordinator begins.
const ROUND: Round = Round {
    count: 1,
    mode: Mode::Single,
    lead: 0,
};

#[test]
fn a_plan_shows_its_record(rt: HostRuntime) -> Result<(), Fail> {
    holds(&rt, begins_with_one_message(rt.alloc()))
}

fn begins_with_one_message(alloc: Global) -> Result<bool, Fail> {
    let config = Config::new(3, 1, 1).or(Err("no configuration"))?;
    let alone = make_alone(alloc, config, Node::Coordinator(0), &[])?;
    let is_planned = plans_one_message(config, &alone);
    alone.end();
    is_planned
}

// Whether the plan of beginning the round has that event, and one message.
fn plans_one_message(config: Config, alone: &Alone) -> Result<bool, Fail>
    requires alone { IsAlone config (Coordinator 0) alone.now.wire alone.now.cell }
    requires one { config.coordinators ≡ 1 }
{
    let begin = Move::Begin(ROUND);
    let plan = alone.cell.think(&begin, None)?;
    let made = plan.made();
    let is_begun = matches!(made.event, Event::Begin { .. });
    Ok(is_begun && made.out.as_slice().len() == 1)
}

#[test]
fn a_coordinator_waits_and_begins_and_looks(rt: HostRuntime) -> Result<(), Fail> {
    holds(&rt, steps(&rt, rt.alloc()))
}

fn steps<R: Wait>(rt: &R, alloc: Global) -> Result<bool, Fail> {
    let config = Config::new(3, 1, 1).or(Err("no configuration"))?;
    let mut alone = make_alone(alloc, config, Node::Coordinator(0), &[])?;
    let is_begun = waits_and_begins(rt, config, &mut alone);
    let (pass, log) = alone.cell.into_parts();
    Ok(is_begun && pass.seen() == 1 && log.is_some())
}

// Whether the coordinator waits for a message, begins the round, and then sees its own message.
fn waits_and_begins<R: Wait>(rt: &R, config: Config, alone: &mut Alone) -> bool
    requires alone { IsAlone config (Coordinator 0) alone.old.wire alone.old.cell }
    requires one { config.coordinators ≡ 1 }
{
    let Alone { wire, cell } = alone;
    let early = is_waiting(cell.step(rt, wire, Move::Take(0), &Idle, 0));
    if cell.is_down() {
        return false;
    }
    let messages = count_of(cell.step(rt, wire, Move::Begin(ROUND), &Idle, 1));
    let is_begun = has_begun(cell);
    let first = kind_of(cell.look(rt, wire, 0));
    let second = kind_of(cell.look(rt, wire, 1));
    early && is_begun && (messages, first, second) == (Some(1), Some(MsgKind::P1a), None)
}

fn has_begun(cell: &Cell<MemDisk>) -> bool {
    (cell.is_down(), cell.posted(), cell.seen()) == (false, 1, 1)
        && cell.durable().is_some()
        && cell.learned().is_none()
}

// How many messages there are after a step.
fn count_of(outcome: Result<u64, StepFault>) -> Option<u64> {
    match outcome {
        Ok(messages) => Some(messages),
        Err(_) => None,
    }
}

fn is_waiting(outcome: Result<u64, StepFault>) -> bool {
    matches!(outcome, Err(StepFault::Waiting))
}

// The kind of a message that was looked for.
fn kind_of(found: Result<Option<Msg>, NoMemory>) -> Option<MsgKind> {
    match found {
        Ok(Some(m)) => Some(m.kind()),
        _ => None,
    }
}
