//! Cells as a stage: the steps of a driver.
ghost use Rattle.std.specs.Prelude.{◌≡◌, ◌<◌, ◌^◌, length, map, slice_get, vec_len, vec_capacity};
ghost use Rattle.gp_msg.specs.Reads.{kind_of};
ghost use Rattle.gp_run.specs.Messages.{messages};
ghost use Rattle.gp_run.specs.Runs.{newest_first};
ghost use Rattle.gp_run.specs.TopCount.{top_count, top_of_messages};
ghost use Rattle.gp_msg.specs.Records.{messages_in};
ghost use Rattle.gp_stage.specs.Held.{AreUp, seen_by, stage_of};
ghost use Rattle.gp_stage.specs.Gathered.{AreSameBut};
ghost use Rattle.gp_stage.specs.Kept.{AreHeld};
ghost use Rattle.gp_stage.specs.Played.{CanPlay, HasPlayed, HasTakenOver, KnewBefore, stage_fault};

use crate::cells::CellStage;
use crate::finding::{find, move_of};
use crate::gathering::meet_at;
use crate::tops::{top_of_cell, top_of_cells};
use gp_cell::{Cell, PaxosRules};
use gp_driver::{Stage, StageFault};
use gp_edge::{Disk, Gate};
use gp_msg::{Event, MsgKind};
use gp_round::Config;
use gp_wire::Wire;
use gp_work::{Move, StepFault};
use std::sync::Wait;

// The cell at a place takes over all nodes.
fn take_over<D: Disk>(wire: &Wire<PaxosRules>, cells: &mut [Cell<D>], holder: usize, at: usize)
    requires held { AreHeld wire.now wire.now.rules.config cells.old holder }
    requires here { at < length cells.old }
    ensures taken { HasTakenOver wire.now cells.old cells.new holder at }
    ensures long { length cells.new ≡ length cells.old }
{
    if at != holder {
        meet_at(wire, cells, at, holder);
    }
}

// The cell at a place takes over all nodes and makes a move.
fn play_at<D: Disk, W: Wait, G: Gate>(
    rt: &W,
    wire: &Wire<PaxosRules>,
    gate: &G,
    cells: &mut [Cell<D>],
    holder: usize,
    at: usize,
    mv: Move,
) -> Result<u64, StepFault>
    requires held { AreHeld wire.now wire.now.rules.config cells.old holder }
    requires here { at < length cells.old }
    requires can { CanPlay wire.now.rules.config cells.old holder at mv }
    requires room { length (seen_by (slice_get cells.old holder)) < 2 ^ 31 }
    ensures { HasPlayed D.faults wire.now cells.old cells.new holder at mv result }
{
    take_over(wire, cells, holder, at);
    cells[at].step(rt, wire, mv, gate, 0)
}

// The fault of a stage, given the fault of a cell's step.
fn fault_of(fault: StepFault) -> StageFault
    ensures { result ≡ stage_fault fault }
{
    match fault {
        StepFault::Waiting | StepFault::NoMemory => StageFault::NoMemory,
        StepFault::Disk => StageFault::Disk,
        StepFault::Full { size, need } => StageFault::Full { size, need },
    }
}

// Brings what is known of the messages up to date after a step of the cell at this place, which
// sent one message or none: their kinds, and the greatest count of a round in them. Returns that
// count, and the greatest count in a message or a node.
fn keep_up<D: Disk, W: Wait>(
    rt: &W,
    wire: &Wire<PaxosRules>,
    cells: &mut [Cell<D>],
    at: usize,
    kinds: &mut Vec<MsgKind>,
    sent_top: u32,
) -> (u32, u32)
    requires held { AreHeld wire.now wire.now.rules.config cells.old at }
    requires here { at < length cells.old }
    requires up { AreUp cells.old }
    requires room { vec_len kinds.old < vec_capacity kinds.old }
    requires knew { KnewBefore wire.now.rules.config cells.old at kinds.old.items sent_top }
    ensures held { AreHeld wire.now wire.now.rules.config cells.new at }
    ensures same { AreSameBut cells.old cells.new }
    ensures list { seen_by (slice_get cells.new at) ≡ seen_by (slice_get cells.old at) }
    ensures kinds { kinds.new.items ≡ map kind_of (messages_in (seen_by (slice_get cells.new at))) }
    ensures sent { result.0 ≡ top_of_messages (messages (newest_first (seen_by (slice_get cells.new at)))) }
    ensures top { result.1 ≡ top_count wire.now.rules.config (newest_first (seen_by (slice_get cells.new at))) }
{
    let mut sent = sent_top;
    if let Some(kind) = cells[at].kind_of(rt, wire, kinds.len() as u64) {
        kinds.push_reserved(kind);
        sent = sent.max(top_of_cell(&cells[at]));
    }
    (sent, sent.max(top_of_cells(cells)))
}

/// The stage is ready if all its cells are up. It counts the faults of its disks and the results
/// `Full` of its steps. Numbers are too great for an event if the log of its node has no room for
/// the entry of the event: they are the size of a log without entries, and the bytes that the entry
/// needs.
impl<'a, D: Disk, G: Gate> Stage for CellStage<'a, D, G> {
    ghost state = { stage_of D.faults };

    fn config(&self) -> &Config {
        &self.config
    }

    fn top_count(&self) -> u32 {
        self.top
    }

    fn messages(&self) -> u64 {
        self.kinds.len() as u64
    }

    fn kind<W: Wait>(&mut self, _rt: &W, k: u64) -> Option<MsgKind> {
        self.kinds.get(k as usize).copied()
    }

    // memory for one more kind is reserved first
    fn step<W: Wait>(&mut self, rt: &W, event: Event) -> Result<u64, StageFault> {
        if self.kinds.reserve(1).is_err() {
            drop(event);
            return Err(StageFault::NoMemory);
        }
        let (node, mv) = move_of(event);
        let Some(at) = find(&self.cells, node) else {
            unreachable!()
        };
        let stepped = play_at(
            rt,
            &self.wire,
            self.gate,
            &mut self.cells,
            self.holder,
            at,
            mv,
        );
        self.holder = at;
        match stepped {
            Ok(messages) => {
                let (sent, top) = keep_up(
                    rt,
                    &self.wire,
                    &mut self.cells,
                    at,
                    &mut self.kinds,
                    self.sent_top,
                );
                self.sent_top = sent;
                self.top = top;
                Ok(messages)
            }
            Err(fault) => {
                if let StepFault::Full { .. } = fault {
                    self.fulls = self.fulls.saturating_add(1);
                }
                Err(fault_of(fault))
            }
        }
    }
}
