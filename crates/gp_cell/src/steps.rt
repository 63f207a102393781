//! The steps of a running node.
ghost use Rattle.std.specs.Prelude.{◌≡◌, ◌<◌, ◌^◌, ◌+◌, List, true, false, None, Some, length, IfOk, IfErr, OnOk, OnErr};
ghost use Rattle.std.specs.Option.{option_map, option_copied};
ghost use Rattle.gp_msg.specs.Messages.{message_of, entry_of};
ghost use Rattle.gp_run.specs.Messages.{messages};
ghost use Rattle.gp_run.specs.Runs.{newest_first};
ghost use Rattle.gp_wire.specs.Lists.{Has};
ghost use Rattle.gp_msg.specs.Records.{messages_in};
ghost use Rattle.gp_wire.specs.Known.{records, HoldsAll};
ghost use Rattle.gp_work.specs.declared.faults.StepFault.TheVariants as StepFault;
ghost use Rattle.gp_wire.specs.Own.{own};
ghost use Rattle.gp_work.specs.Moves.{event_of, Fits, HasRoom, IsBeyond};
ghost use Rattle.gp_cell.specs.Cores.{opening, part_in};
ghost use Rattle.gp_cell.specs.Plans.{HasRole, IsNamed, Names, named};
ghost use Rattle.gp_cell.specs.Lawful.{IsLawful};
ghost use Rattle.gp_cell.specs.Cells.{IsCoreAfter, IsSameBut, IsThought, Keeps, PostsOne};
ghost use Rattle.gp_cell.specs.Passing.{Later, GoesOn, posts_in};
ghost use Rattle.gp_cell.specs.Crashes.{Writes, LeavesOneOf, IsReadyLog};
ghost use Rattle.gp_cell.specs.Refusals.{CountsFaults, IsUpOrBegun, IsReadFault, StepCause, WriteCause, faults_of, limit_of, part_after};

use crate::cell::Cell;
use crate::planning::{Plan, make_plan};
use crate::roles::Core;
use crate::rules::PaxosRules;
use crate::writing::{new_part, write_to};
use gp_command::NoMemory;
use gp_edge::{Disk, Gate};
use gp_msg::{Msg, Record};
use gp_wire::{Pass, Wire};
use gp_work::{Move, StepFault};
use std::sync::Wait;

/// A cell whose pass has seen this many records or more refuses a step or a recovery as if memory
/// ran out.
pub const MOST_RECORDS: u64 = 2_147_483_648;

impl<D: Disk> Cell<D> {
    /// Plans a move: returns the next state of the node, and the record of its step, which may be
    /// posted. `m` is the message that the move takes. Nothing changes. It returns `NoMemory` if
    /// memory runs out, and also if the cell's pass has seen 2^31 records or more.
    pub fn think(&self, mv: &Move, m: Option<&Msg>) -> Result<Plan, NoMemory>
        requires fits { Fits self.now.config self.now.node mv.now }
        requires room { HasRoom (length (own self.now.node (records self.now.pass))) mv.now }
        requires named { Names (messages_in (records self.now.pass)) mv.now (option_copied m) }
        ensures thought { IfOk result (IsThought self.now mv.now) }
        ensures few { OnOk result (length self.now.pass.seen < 2 ^ 31) }
    {
        if self.pass.seen() >= MOST_RECORDS {
            return Err(NoMemory);
        }
        make_plan(self.alloc, self.node, &self.core, mv, m)
    }

    // Reads the message that a move takes, and plans the move.
    pub(crate) fn prepare<W: Wait>(
        &mut self,
        rt: &W,
        wire: &Wire<PaxosRules>,
        mv: &Move,
    ) -> Result<Plan, StepFault>
        requires own { self.old.pass.wire ≡ wire.now.id }
        requires holds { Has self.old.pass.node self.old.pass.holds }
        requires fits { Fits self.old.config self.old.node mv.now }
        requires room { HasRoom (length (own self.old.node (records self.old.pass))) mv.now }
        ensures rest { IsSameBut self.old self.new }
        ensures pass { Later self.old.pass self.new.pass }
        ensures whole { HoldsAll self.old.pass → length self.new.pass.seen ≡ length self.old.pass.seen }
        ensures own { own self.new.node (records self.new.pass) ≡ own self.old.node (records self.old.pass) }
        ensures thought { IfOk result (IsThought self.new mv.now) }
        ensures waiting { IfErr result (λ f. f ≡ StepFault.Waiting → IsBeyond (length (messages_in (records self.new.pass))) mv.now) }
        ensures cause { IfErr result IsReadFault }
    {
        let message = read_named(rt, wire, &mut self.pass, mv)?;
        let made = self.think(mv, message.as_ref());
        drop(message);
        match made {
            Ok(plan) => Ok(plan),
            Err(NoMemory) => Err(StepFault::NoMemory),
        }
    }

    // What a node that is up knows of its log.
    fn know_log(&self)
        requires up { self.now.down ≡ None }
        ensures kept { Keeps (part_in (opening self.now.config self.now.node)) (part_in self.now.core) self.now.log }
        ensures ready { IsReadyLog D.content D.image self.now.log }
    {
        let Some(log) = &self.log else {
            return;
        };
        let _ready = log.is_ready();
    }

    // Writes the durable part of the next core, if it has changed. Then the node is down until the
    // record is posted.
    fn write(&mut self, mv: Move, next: &Core) -> Result<(), StepFault>
        requires up { self.old.down ≡ None }
        requires ready { IsReadyLog D.content D.image self.old.log }
        requires role { HasRole self.old.node next.now }
        requires fits { Fits self.old.config self.old.node mv }
        requires stands { IsNamed mv (named (messages (newest_first (records self.old.pass))) mv) }
        requires next { IsCoreAfter self.old (event_of self.old.node mv) next.now }
        ensures rest { (self.new.config ≡ self.old.config) × (self.new.node ≡ self.old.node) × (self.new.core ≡ self.old.core) × (self.new.pass ≡ self.old.pass) }
        ensures kept { OnOk result (Keeps (part_in (opening self.new.config self.new.node)) (part_in next.now) self.new.log) }
        ensures down { OnOk result (IsUpOrBegun self.old self.new mv) }
        ensures log { OnOk result (Writes self.old.log self.new.log (part_in self.old.core) (part_in next.now)) }
        ensures crash { LeavesOneOf D.content D.moment D.since (part_in (opening self.old.config self.old.node)) (part_in self.old.core) (part_in next.now) self.old.log self.new.log }
        ensures cause { IfErr result (WriteCause self.old self.new next.now mv) }
        ensures count { CountsFaults (faults_of D.faults self.old.log) (faults_of D.faults self.new.log) result }
        ensures limit { limit_of self.new.log ≡ limit_of self.old.log }
    {
        match new_part(&self.core, next) {
            Err(NoMemory) => {
                drop(mv);
                Err(StepFault::NoMemory)
            }
            Ok(None) => {
                drop(mv);
                Ok(())
            }
            Ok(Some(part)) => {
                go_down(&mut self.down, mv);
                let written = write_to(&mut self.log, &part);
                drop(part);
                written
            }
        }
    }

    // Posts a record. The node then has its next core and is up. If memory runs out, a node that is
    // down stays down.
    pub(crate) fn post<W: Wait>(
        &mut self,
        rt: &W,
        wire: &Wire<PaxosRules>,
        next: Core,
        made: Record,
    ) -> Result<u64, StepFault>
        requires own { self.old.pass.wire ≡ wire.now.id }
        requires config { self.old.config ≡ wire.now.rules.config }
        requires holds { Has self.old.pass.node self.old.pass.holds }
        requires node { made.node ≡ self.old.node }
        requires lawful { IsLawful self.old.config (newest_first (records self.old.pass)) (entry_of made) }
        requires next { IsCoreAfter self.old made.event next }
        requires kept { Keeps (part_in (opening self.old.config self.old.node)) (part_in next) self.old.log }
        ensures rest { (self.new.config ≡ self.old.config) × (self.new.node ≡ self.old.node) × (self.new.log ≡ self.old.log) }
        ensures goes { GoesOn self.old.pass self.new.pass }
        ensures whole { HoldsAll self.old.pass → length self.new.pass.seen ≡ length self.old.pass.seen + posts_in result }
        ensures posted { OnOk result (PostsOne self.old.config self.old.node (records self.old.pass) (records self.new.pass) made.event) }
        ensures count { IfOk result (λ n. n ≡ length (messages_in (records self.new.pass))) }
        ensures next { OnOk result (self.new.core ≡ next) }
        ensures up { OnOk result (self.new.down ≡ None) }
        ensures nothing { OnErr result (own self.new.node (records self.new.pass) ≡ own self.old.node (records self.old.pass)) }
        ensures core { OnErr result (self.new.core ≡ self.old.core) }
        ensures stays { OnErr result (self.new.down ≡ self.old.down) }
        ensures cause { IfErr result (λ e. e ≡ StepFault.NoMemory) }
    {
        match wire.append(rt, &mut self.pass, made) {
            Ok(messages) => {
                let _seen = self.pass.seen();
                self.core = next;
                self.posted += 1;
                come_up(&mut self.down);
                Ok(messages)
            }
            Err(unposted) => {
                drop(unposted);
                drop(next);
                Err(StepFault::NoMemory)
            }
        }
    }

    /// Makes a move of a node that is up, and posts exactly one record. Returns how many messages
    /// there are then.
    ///
    /// The step reads the message that the move takes, plans the move, calls the gate with `turn`,
    /// and writes the durable part to the log if the part changes. The part is appended, or becomes
    /// the only entry if the log has no room for one more. No clause says when the gate is called
    /// or with which number; tests do.
    ///
    /// It returns `Waiting` only if the message that the move takes was not sent yet, and then only
    /// the pass has changed. It returns `Full` only if the log has no room for the part, even as
    /// its only entry, and `Disk` only if the number of faults of the disk has increased or is
    /// 2^64 - 1. After both the node is down and remembers the move. `NoMemory` comes if memory
    /// runs out, or if the pass has seen 2^31 records or more. The node is then down, and remembers
    /// the move, only if the append to its log had begun: the log is not ready, or has the new
    /// part. Otherwise only the pass has changed. A move that is refused posts nothing.
    ///
    /// If the pass holds all nodes, it sees no record except the one that it posts.
    pub fn step<W: Wait, G: Gate>(
        &mut self,
        rt: &W,
        wire: &Wire<PaxosRules>,
        mv: Move,
        gate: &G,
        turn: u64,
    ) -> Result<u64, StepFault>
        requires own { self.old.pass.wire ≡ wire.now.id }
        requires config { self.old.config ≡ wire.now.rules.config }
        requires holds { Has self.old.pass.node self.old.pass.holds }
        requires up { self.old.down ≡ None }
        requires fits { Fits self.old.config self.old.node mv }
        requires room { HasRoom (length (own self.old.node (records self.old.pass))) mv }
        ensures same { (self.new.config ≡ self.old.config) × (self.new.node ≡ self.old.node) }
        ensures goes { GoesOn self.old.pass self.new.pass }
        ensures whole { HoldsAll self.old.pass → length self.new.pass.seen ≡ length self.old.pass.seen + posts_in result }
        ensures posted { OnOk result (PostsOne self.old.config self.old.node (records self.old.pass) (records self.new.pass) (event_of self.old.node mv)) }
        ensures count { IfOk result (λ n. n ≡ length (messages_in (records self.new.pass))) }
        ensures up { OnOk result (self.new.down ≡ None) }
        ensures nothing { OnErr result (own self.old.node (records self.new.pass) ≡ own self.old.node (records self.old.pass)) }
        ensures core { OnErr result (self.new.core ≡ self.old.core) }
        ensures log { OnOk result (Writes self.old.log self.new.log (part_in self.old.core) (part_in self.new.core)) }
        ensures crash { LeavesOneOf D.content D.moment D.since (part_in (opening self.old.config self.old.node)) (part_in self.old.core) (part_after self.old self.new mv) self.old.log self.new.log }
        ensures cause { IfErr result (StepCause self.old self.new mv) }
        ensures faults { CountsFaults (faults_of D.faults self.old.log) (faults_of D.faults self.new.log) result }
        ensures limit { limit_of self.new.log ≡ limit_of self.old.log }
    {
        self.know_log();
        let plan = match self.prepare(rt, wire, &mv) {
            Ok(plan) => plan,
            Err(fault) => {
                drop(mv);
                return Err(fault);
            }
        };
        gate.at(self.node, turn);
        let Plan { next, made } = plan;
        match self.write(mv, &next) {
            Ok(()) => self.post(rt, wire, next, made),
            Err(fault) => {
                drop(next);
                drop(made);
                Err(fault)
            }
        }
    }
}

// The message that a move takes, if it takes one.
fn read_named<W: Wait>(
    rt: &W,
    wire: &Wire<PaxosRules>,
    pass: &mut Pass,
    mv: &Move,
) -> Result<Option<Msg>, StepFault>
    requires own { pass.old.wire ≡ wire.now.id }
    requires holds { Has pass.old.node pass.old.holds }
    ensures knows { Later pass.old pass.new }
    ensures whole { HoldsAll pass.old → length pass.new.seen ≡ length pass.old.seen }
    ensures named { IfOk result (Names (messages_in (records pass.new)) mv.now) }
    ensures waiting { IfErr result (λ f. f ≡ StepFault.Waiting → IsBeyond (length (messages_in (records pass.new))) mv.now) }
    ensures cause { IfErr result IsReadFault }
{
    let Move::Take(k) = mv else {
        return Ok(None);
    };
    match wire.read(rt, pass, *k) {
        Ok(Some(m)) => Ok(Some(m)),
        Ok(None) => Err(StepFault::Waiting),
        Err(NoMemory) => Err(StepFault::NoMemory),
    }
}

// The node is up.
fn come_up(down: &mut Option<Move>)
    ensures { down.new ≡ None }
{
    *down = None;
}

// The node is down since this move.
fn go_down(down: &mut Option<Move>, mv: Move)
    ensures { down.new ≡ Some mv }
{
    *down = Some(mv);
}
