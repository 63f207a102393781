//! The recovery of a running node.
ghost use Rattle.std.specs.Prelude.{◌≡◌, [], None, Some, length, IsSome, IfOk, IfErr, IfSome, OnOk, OnErr};
ghost use Rattle.gp_msg.specs.declared.event.Event.TheVariants as Event;
ghost use Rattle.gp_msg.specs.Messages.{part_of};
ghost use Rattle.gp_run.specs.Messages.{messages};
ghost use Rattle.gp_run.specs.Runs.{newest_first};
ghost use Rattle.gp_wire.specs.Lists.{Has};
ghost use Rattle.gp_msg.specs.Records.{messages_in};
ghost use Rattle.gp_wire.specs.Known.{records};
ghost use Rattle.gp_wire.specs.Own.{own};
ghost use Rattle.gp_work.specs.Moves.{event_of, Fits, HasRoom};
ghost use Rattle.gp_cell.specs.Cores.{opening, acts, part_in};
ghost use Rattle.gp_cell.specs.Cells.{IsLogged, IsThought, WentDown};
ghost use Rattle.gp_cell.specs.Passing.{Later, GoesOn};
ghost use Rattle.gp_cell.specs.Crashes.{HoldsSame, IsReadyLog};
ghost use Rattle.gp_cell.specs.Downs.{LeavesEither, IsOpenedLog, IsOfLog, HidesLog};
ghost use Rattle.gp_cell.specs.Falls.{fell, IsFall, IsRevival, Rises, FitsNone};
ghost use Rattle.gp_cell.specs.Founds.{IsFound, IsChanged, LogBreaksWhere, FallCause, RiseCause, IsNotRisen};
ghost use Rattle.gp_cell.specs.Refusals.{CountsRiseFaults, faults_of, limit_of};

use crate::cell::Cell;
use crate::found::Found;
use crate::opening::opening_part;
use crate::planning::Plan;
use crate::rising::{copy_move, fallen, fit, reopen};
use crate::roles::Core;
use crate::rules::PaxosRules;
use gp_command::NoMemory;
use gp_edge::Disk;
use gp_msg::{Durable, Event, Kept, Outs, Record};
use gp_wire::Wire;
use gp_work::{Move, RiseFault};
use std::sync::Wait;

/// A core after a crash, and the record of the crash.
#[derive(Drop)]
struct Revived {
    next: Core,
    item: Record,
}

impl<D: Disk> Cell<D> {
    // The move in which it went down.
    fn downed(&self) -> Result<Move, NoMemory>
        requires down { IsSome self.now.down }
        ensures same { IfOk result (λ mv. self.now.down ≡ Some mv) }
        ensures went { IfOk result (λ mv. WentDown self.now.config self.now.node self.now.log (messages (newest_first (records self.now.pass))) mv) }
        ensures room { IfOk result (λ mv. HasRoom (length (own self.now.node (records self.now.pass))) mv) }
        ensures either { IfOk result (LeavesEither D.content D.image self.now) }
    {
        match &self.down {
            Some(mv) => copy_move(mv),
            None => unreachable!(),
        }
    }

    // Makes its log ready again, and returns what the log has.
    fn reopen_log(&mut self) -> Result<Found, RiseFault>
        requires down { IsSome self.old.down }
        ensures rest { (self.new.config ≡ self.old.config) × (self.new.node ≡ self.old.node) × (self.new.core ≡ self.old.core) × (self.new.pass ≡ self.old.pass) × (self.new.down ≡ self.old.down) }
        ensures found { IfOk result (IsFound (part_in (opening self.new.config self.new.node)) self.new.log) }
        ensures count { CountsRiseFaults (faults_of D.faults self.old.log) (faults_of D.faults self.new.log) result }
        ensures limit { limit_of self.new.log ≡ limit_of self.old.log }
        ensures content { HoldsSame D.content self.old.log self.new.log }
        ensures shown { OnOk result (IsReadyLog D.content D.image self.new.log) }
        ensures opened { OnOk result (IsOpenedLog D.content D.image self.new.log) }
        ensures broken { IfErr result (LogBreaksWhere D.content self.old.log) }
        ensures same { IfErr result (λ e. ¬ (IsChanged e)) }
    {
        match opening_part(self.alloc, &self.config, self.node) {
            Ok(first) => reopen(&mut self.log, first),
            Err(NoMemory) => Err(RiseFault::NoMemory),
        }
    }

    // What a crash that leaves this part keeps of a move, if the part is the one before the move or
    // the one after it.
    fn judge(
        &self,
        mv: &Move,
        plan: &Plan,
        part: &Durable,
    ) -> Result<Option<Option<Kept>>, NoMemory>
        requires logged { IsLogged self.now.node }
        requires fits { Fits self.now.config self.now.node mv.now }
        requires thought { IsThought self.now mv.now plan.now }
        ensures fall { IfOk result (λ o. IfSome o (IsFall self.now mv.now (part_of part.now))) }
        ensures none { IfOk result (λ o. o ≡ None → FitsNone self.now.core (acts self.now.node self.now.core (messages (newest_first (records self.now.pass))) (event_of self.now.node mv.now)).0 (part_of part.now)) }
    {
        fit(&self.core, &plan.next, mv, part)
    }

    // The record of a crash that leaves this part, and the core after the crash.
    fn fall_with(&self, part: Durable, kept: Option<Kept>) -> Result<Revived, NoMemory>
        ensures next { IfOk result (λ r. r.next ≡ fell self.now.core (part_of part)) }
        ensures node { IfOk result (λ r. r.item.node ≡ self.now.node) }
        ensures event { IfOk result (λ r. r.item.event ≡ Event.Fall self.now.node kept) }
        ensures sent { IfOk result (λ r. r.item.out ≡ []) }
    {
        let next = fallen(&self.core, part)?;
        let node = self.node;
        let event = Event::Fall { node, kept };
        let out = Outs::new(self.alloc);
        let item = Record { node, event, out };
        Ok(Revived { next, item })
    }

    // The record of a crash that leaves what the log has, and the core after the crash.
    fn fall(&self, mv: &Move, plan: &Plan, found: Found) -> Result<Revived, RiseFault>
        requires logged { IsLogged self.now.node }
        requires fits { Fits self.now.config self.now.node mv.now }
        requires thought { IsThought self.now mv.now plan.now }
        requires found { IsFound (part_in (opening self.now.config self.now.node)) self.now.log found }
        ensures revived { IfOk result (λ r. IsRevival self.now mv.now r.item r.next) }
        ensures cause { IfErr result (FallCause self.now mv.now) }
    {
        if found.is_old {
            let found = found.into_entry();
            return Err(RiseFault::Changed { found });
        }
        match self.judge(mv, plan, &found.part) {
            Ok(Some(kept)) => match self.fall_with(found.part, kept) {
                Ok(revived) => Ok(revived),
                Err(NoMemory) => Err(RiseFault::NoMemory),
            },
            Ok(None) => {
                let found = found.into_entry();
                Err(RiseFault::Changed { found })
            }
            Err(NoMemory) => {
                drop(found);
                Err(RiseFault::NoMemory)
            }
        }
    }

    // Makes its log ready, and makes the record of its crash and the core after the crash.
    fn revive<W: Wait>(
        &mut self,
        rt: &W,
        wire: &Wire<PaxosRules>,
        mv: &Move,
    ) -> Result<Revived, RiseFault>
        requires own { self.old.pass.wire ≡ wire.now.id }
        requires holds { Has self.old.pass.node self.old.pass.holds }
        requires down { self.old.down ≡ Some mv.now }
        requires logged { IsLogged self.old.node }
        requires fits { Fits self.old.config self.old.node mv.now }
        requires room { HasRoom (length (own self.old.node (records self.old.pass))) mv.now }
        ensures rest { (self.new.config ≡ self.old.config) × (self.new.node ≡ self.old.node) × (self.new.core ≡ self.old.core) × (self.new.down ≡ self.old.down) }
        ensures pass { Later self.old.pass self.new.pass }
        ensures own { own self.new.node (records self.new.pass) ≡ own self.old.node (records self.old.pass) }
        ensures revived { IfOk result (λ r. IsRevival self.new mv.now r.item r.next) }
        ensures content { HoldsSame D.content self.old.log self.new.log }
        ensures shown { OnOk result (IsReadyLog D.content D.image self.new.log) }
        ensures opened { IfErr result (λ e. IsChanged e → IsOpenedLog D.content D.image self.new.log) }
        ensures cause { IfErr result (RiseCause D.content self.old self.new mv.now) }
        ensures count { CountsRiseFaults (faults_of D.faults self.old.log) (faults_of D.faults self.new.log) result }
        ensures limit { limit_of self.new.log ≡ limit_of self.old.log }
    {
        let found = self.reopen_log()?;
        let plan = match self.prepare(rt, wire, mv) {
            Ok(plan) => plan,
            Err(fault) => {
                drop(fault);
                drop(found);
                return Err(RiseFault::NoMemory);
            }
        };
        let made = self.fall(mv, &plan, found);
        drop(plan);
        made
    }

    /// Recovers a node that is down, and returns how many messages there are then. It makes the log
    /// ready again, compares the part that the log has with the durable parts before and after the
    /// move in which the node went down, and posts one crash (`Fall`). The part that the log has is
    /// its last entry, or that of a node to which nothing has happened if there is none. The crash
    /// keeps the move exactly if only the part after it fits.
    ///
    /// It returns `Disk` only if the number of faults of the disk has increased or is 2^64 - 1;
    /// `NotLog` only if the bytes of the disk break the format of a log, with the smallest place
    /// where they do; `Changed`, with the last entry that was found, only if neither part fits or
    /// the entries are of version 1 of the format; and `NoMemory` if memory runs out or if the pass
    /// has seen 2^31 records or more. `NotLog` and `Changed` come only if the disk does not reveal
    /// its content: one that does reveal it has kept one of the two parts. After each error the
    /// node is still down, and has posted nothing.
    pub fn rise<W: Wait>(&mut self, rt: &W, wire: &Wire<PaxosRules>) -> Result<u64, RiseFault>
        requires own { self.old.pass.wire ≡ wire.now.id }
        requires config { self.old.config ≡ wire.now.rules.config }
        requires holds { Has self.old.pass.node self.old.pass.holds }
        requires down { IsSome self.old.down }
        ensures same { (self.new.config ≡ self.old.config) × (self.new.node ≡ self.old.node) }
        ensures goes { GoesOn self.old.pass self.new.pass }
        ensures rises { OnOk result (Rises self.old self.new) }
        ensures count { IfOk result (λ n. n ≡ length (messages_in (records self.new.pass))) }
        ensures up { OnOk result (self.new.down ≡ None) }
        ensures nothing { OnErr result (own self.old.node (records self.new.pass) ≡ own self.old.node (records self.old.pass)) }
        ensures core { OnErr result (self.new.core ≡ self.old.core) }
        ensures down { OnErr result (self.new.down ≡ self.old.down) }
        ensures content { HoldsSame D.content self.old.log self.new.log }
        ensures shown { OnOk result (IsReadyLog D.content D.image self.new.log) }
        ensures cause { IfErr result (IsNotRisen D.content self.old self.new) }
        ensures hidden { IfErr result (λ e. IsOfLog e → HidesLog D.content self.old.log) }
        ensures faults { CountsRiseFaults (faults_of D.faults self.old.log) (faults_of D.faults self.new.log) result }
        ensures limit { limit_of self.new.log ≡ limit_of self.old.log }
    {
        let mv = match self.downed() {
            Ok(mv) => mv,
            Err(NoMemory) => return Err(RiseFault::NoMemory),
        };
        let made = self.revive(rt, wire, &mv);
        drop(mv);
        match made {
            Ok(Revived { next, item }) => match self.post(rt, wire, next, item) {
                Ok(messages) => Ok(messages),
                Err(fault) => {
                    drop(fault);
                    Err(RiseFault::NoMemory)
                }
            },
            Err(fault) => Err(fault),
        }
    }
}
