//! A running node.
ghost use Rattle.std.specs.Prelude.{◌≡◌, ◌↔◌, ◌⊎◌, [], true, None, Some, Option, length, slice_get, IsSome, IsTrue, IfOk, IfErr};
ghost use Rattle.std.specs.Option.{option_map, option_copied};
ghost use Rattle.gp_history.specs.Sequence.{history_of};
ghost use Rattle.gp_msg.specs.Messages.{EpochPart};
ghost use Rattle.gp_msg.specs.Nodes.{is_present};
ghost use Rattle.gp_vlog.specs.Logs.{last};
ghost use Rattle.gp_run.specs.Runs.{newest_first};
ghost use Rattle.gp_wire.specs.Lists.{Has};
ghost use Rattle.gp_msg.specs.Records.{messages_in};
ghost use Rattle.gp_wire.specs.Rule.{Begins};
ghost use Rattle.gp_wire.specs.Known.{records, old_of};
ghost use Rattle.gp_wire.specs.Passes.{HadTurn, nothing, met, spent};
ghost use Rattle.gp_wire.specs.Own.{own};
ghost use Rattle.gp_cell.specs.Cores.{opening, core_at, part_in, learned_in};
ghost use Rattle.gp_work.specs.declared.moves.Move.{Move};
ghost use Rattle.gp_cell.specs.Downs.{LeavesEither};
ghost use Rattle.gp_cell.specs.Cells.{cell_of, IsFreshLog, IsSameBut, IsHeldBy, IsLogged, Keeps, OwnLawful, last_entry};

use crate::opening::opening_core;
use crate::roles::Core;
use crate::rules::PaxosRules;
use gp_command::NoMemory;
use gp_edge::Disk;
use gp_index::History;
use gp_msg::{Durable, Msg, Node};
use gp_round::Config;
use gp_vlog::Log;
use gp_wire::{Pass, Wire};
use gp_work::Move;
use std::alloc::Global;
use std::marker::Model;
use std::sync::Wait;

/// One running node: its protocol state, its log if it is an acceptor or a coordinator, and its
/// pass at a wire.
///
/// The state is the one that the node's own records make. While the node is up, its log keeps the
/// durable part of that state: as the last entry, or, if the log has no entry, as the part of a
/// node to which nothing has happened. If the log could not be written in a step, the node is down
/// until `rise` recovers it.
///
/// A contract sees the configuration, the node, its state, its log, its pass, and the move in which
/// it went down.
#[derive(Drop)]
pub struct Cell<D: Disk> {
    pub(crate) alloc: Global,
    pub(crate) config: Config,
    pub(crate) node: Node,
    pub(crate) core: Core,
    pub(crate) log: Option<Log<D>>,
    pub(crate) pass: Pass,
    // how many records the node posted
    pub(crate) posted: u64,
    pub(crate) down: Option<Move>,
}

impl<D: Disk> Model for Cell<D> {
    ghost use Rattle.gp_run.specs.Messages.{messages};
    ghost use Rattle.gp_run.specs.Runs.{newest_first};
    ghost use Rattle.gp_wire.specs.Known.{records};
    ghost use Rattle.gp_cell.specs.Cells.{CellState, IsSound};
    ghost use Rattle.gp_cell.specs.Downs.{StaysEither};
    ghost use Rattle.gp_cell.specs.Codes.{cell_code};

    ghost Value = { CellState D };

    ghost coded = { cell_code D.code };

    ghost view = { λ c. record { config = c.config; node = c.node; core = c.core; log = c.log; pass = c.pass; down = c.down } };

    ghost invariant = { λ c. IsSound c.config c.node c.core c.log c.pass c.posted c.down × StaysEither D.content D.image c.config c.node c.core c.log (messages (newest_first (records c.pass))) c.down };
}

/// The log and the pass of a cell that was not made because memory ran out.
#[derive(Drop)]
pub struct Unmade<D: Disk> {
    pub log: Option<Log<D>>,
    pub pass: Pass,
}

impl<D: Disk> Cell<D> {
    /// The cell of a node to which nothing has happened. `log` is a ready log without entries if
    /// the node is an acceptor or a coordinator, and `None` otherwise. `pass` is that of the node,
    /// and has seen no record of it. If memory runs out, both come back.
    pub fn new(
        alloc: Global,
        config: Config,
        node: Node,
        log: Option<Log<D>>,
        pass: Pass,
    ) -> Result<Cell<D>, Unmade<D>>
        requires present { is_present config node ≡ true }
        requires node { pass.node ≡ node }
        requires none { own node (records pass) ≡ [] }
        requires log { IsFreshLog (part_in (opening config node)) log }
        ensures made { IfOk result (λ c. c ≡ cell_of config node (opening config node) log pass None) }
        ensures back { IfErr result (λ u. (u.log ≡ log) × (u.pass ≡ pass)) }
    {
        know_fresh(&log);
        match opening_core(alloc, &config, node) {
            Err(NoMemory) => Err(Unmade { log, pass }),
            Ok(core) => Ok(Cell {
                alloc,
                config,
                node,
                core,
                log,
                pass,
                posted: 0,
                down: None,
            }),
        }
    }

    /// How many records of its node the list of its pass has.
    pub fn posted(&self) -> u64
        ensures { result ≡ length (own self.now.node (records self.now.pass)) }
    {
        self.posted
    }

    /// How many records its pass has seen.
    pub fn seen(&self) -> u64
        ensures { result ≡ length self.now.pass.seen }
    {
        self.pass.seen()
    }

    /// Whether the node is down, as only an acceptor or a coordinator can be. If it is up, its log
    /// keeps the durable part of its state. If it is down, a crash now leaves a log whose last part
    /// is the one before the move in which the node went down, or the one after it, as long as the
    /// disk reveals its content. Up or down, each record of the node was legal at its place in the
    /// list of its pass.
    pub fn is_down(&self) -> bool
        ensures down { IsTrue result ↔ IsSome self.now.down }
        ensures node { self.now.pass.node ≡ self.now.node }
        ensures lawful { OwnLawful self.now.config self.now.node (records self.now.pass) }
        ensures core { self.now.core ≡ core_at self.now.config self.now.node (newest_first (records self.now.pass)) }
        ensures logged { (mv : Move) → self.now.down ≡ Some mv → IsLogged self.now.node }
        ensures either { (mv : Move) → self.now.down ≡ Some mv → LeavesEither D.content D.image self.now mv }
        ensures kept { self.now.down ≡ None → Keeps (part_in (opening self.now.config self.now.node)) (part_in self.now.core) self.now.log }
    {
        self.down.is_some()
    }

    /// The history that it has learned, and `None` exactly if it is no learner.
    pub fn learned(&self) -> Option<&History>
        ensures { option_map history_of (option_copied result) ≡ learned_in self.now.core }
    {
        match &self.core {
            Core::Learner(learner) => Some(learner.learned()),
            _ => None,
        }
    }

    /// The last entry of its log, and `None` exactly if it has no log or the log has no entry.
    pub fn durable(&self) -> Option<&Durable>
        ensures { option_copied result ≡ last_entry self.now.log }
    {
        match &self.log {
            Some(log) => last_of(log),
            None => None,
        }
    }

    /// Message k, counted from 0, of the list that its pass has seen at the end of this call, and
    /// `None` exactly if that list has no message k. The pass has a turn at the wire, also if
    /// memory runs out. Nothing else of the cell changes.
    pub fn look<W: Wait>(
        &mut self,
        rt: &W,
        wire: &Wire<PaxosRules>,
        k: u64,
    ) -> Result<Option<Msg>, NoMemory>
        requires own { self.old.pass.wire ≡ wire.now.id }
        requires holds { Has self.old.pass.node self.old.pass.holds }
        ensures rest { IsSameBut self.old self.new }
        ensures turn { HadTurn self.old.pass self.new.pass nothing }
        ensures own { own self.new.node (records self.new.pass) ≡ own self.old.node (records self.old.pass) }
        ensures answer { IfOk result (λ m. m ≡ slice_get (messages_in (records self.new.pass)) k) }
    {
        wire.read(rt, &mut self.pass, k)
    }

    /// Takes over all nodes that another cell's pass holds. This cell's pass has then seen the
    /// longer of the two lists. One of the two passes has to hold the node of this cell, and to
    /// have seen exactly the records of it that this cell's pass has seen. States and logs are
    /// unchanged.
    pub fn meet(&mut self, wire: &Wire<PaxosRules>, other: &mut Cell<D>)
        requires own { self.old.pass.wire ≡ wire.now.id }
        requires own_too { other.old.pass.wire ≡ wire.now.id }
        requires holder { IsHeldBy self.old.node self.old.pass self.old.pass ⊎ IsHeldBy self.old.node self.old.pass other.old.pass }
        ensures rest { IsSameBut self.old self.new }
        ensures rest_too { IsSameBut other.old other.new }
        ensures pass { self.new.pass ≡ met self.old.pass other.old.pass }
        ensures other { other.new.pass ≡ spent other.old.pass }
        ensures lists { Begins self.new.pass.seen (old_of self.old.pass) × Begins self.new.pass.seen (old_of other.old.pass) }
    {
        wire.meet(&mut self.pass, &mut other.pass);
    }

    /// Returns its pass and its log.
    pub fn into_parts(self) -> (Pass, Option<Log<D>>)
        ensures pass { result.0 ≡ self.pass }
        ensures log { result.1 ≡ self.log }
    {
        let Cell {
            alloc: _,
            config: _,
            node: _,
            core,
            log,
            pass,
            posted: _,
            down,
        } = self;
        drop(core);
        drop(down);
        (pass, log)
    }
}

// A log without entries is not one of version 1 of the format.
fn know_fresh<D: Disk>(log: &Option<Log<D>>)
    ensures { (first : Option EpochPart) → IsFreshLog first log.now → Keeps first first log.now }
{
    let Some(log) = log else {
        return;
    };
    let _old = log.is_old();
}

// The last entry of a log, if there is one.
fn last_of<D: Disk>(log: &Log<D>) -> Option<&Durable>
    ensures { option_copied result ≡ last log.now.entries }
{
    let count = log.count();
    if count == 0 {
        return None;
    }
    Some(log.entry(count - 1))
}
