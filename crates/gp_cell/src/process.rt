//! A cell as the node of a worker.
ghost use Rattle.std.specs.Prelude.{◌≡◌, ◌<◌, ◌^◌, length, slice_get};
ghost use Rattle.std.specs.Option.{option_map};
ghost use Rattle.gp_msg.specs.Reads.{kind_of};
ghost use Rattle.gp_wire.specs.Lists.{Has};
ghost use Rattle.gp_msg.specs.Records.{messages_in};
ghost use Rattle.gp_wire.specs.Known.{records};
ghost use Rattle.gp_wire.specs.Passes.{HadTurn, nothing};
ghost use Rattle.gp_work.specs.Doing.{HasRisen};
ghost use Rattle.gp_wire.specs.Own.{own};
ghost use Rattle.gp_cell.specs.Cells.{IsSameBut};
ghost use Rattle.gp_cell.specs.Working.{process_of, causes_of, IsAt};

use crate::cell::Cell;
use crate::rules::PaxosRules;
use gp_edge::{Disk, Gate};
use gp_msg::{MsgKind, Node};
use gp_wire::Wire;
use gp_work::{Move, Process, RiseFault, StepFault};
use std::sync::Wait;

impl<D: Disk> Cell<D> {
    /// The kind of message k, counted from 0, of the list that its pass has seen at the end of this
    /// call, and `None` exactly if that list has no message k. The pass has a turn at the wire.
    /// Nothing else of the cell changes.
    pub fn kind_of<W: Wait>(&mut self, rt: &W, wire: &Wire<PaxosRules>, k: u64) -> Option<MsgKind>
        requires own { self.old.pass.wire ≡ wire.now.id }
        requires holds { Has self.old.pass.node self.old.pass.holds }
        ensures rest { IsSameBut self.old self.new }
        ensures turn { HadTurn self.old.pass self.new.pass nothing }
        ensures own { own self.new.node (records self.new.pass) ≡ own self.old.node (records self.old.pass) }
        ensures risen { HasRisen self.old.pass.turn self.new.pass.turn }
        ensures few { length (messages_in (records self.new.pass)) < 2 ^ 64 }
        ensures answer { result ≡ option_map kind_of (slice_get (messages_in (records self.new.pass)) k) }
    {
        wire.kind(rt, &mut self.pass, k)
    }
}

impl<D: Disk> Process<Wire<PaxosRules>> for Cell<D> {
    ghost state = { process_of D.faults };

    ghost is_of = { λ c w. IsAt c w };

    ghost causes = { causes_of D.content };

    fn node(&self) -> Node {
        self.node
    }

    fn posted(&self) -> u64 {
        Cell::posted(self)
    }

    fn seen(&self) -> u64 {
        Cell::seen(self)
    }

    fn kind<W: Wait>(&mut self, rt: &W, net: &Wire<PaxosRules>, k: u64) -> Option<MsgKind> {
        self.kind_of(rt, net, k)
    }

    fn step<W: Wait, G: Gate>(
        &mut self,
        rt: &W,
        net: &Wire<PaxosRules>,
        mv: Move,
        gate: &G,
        turn: u64,
    ) -> Result<u64, StepFault> {
        Cell::step(self, rt, net, mv, gate, turn)
    }

    fn rise<W: Wait>(&mut self, rt: &W, net: &Wire<PaxosRules>) -> Result<u64, RiseFault> {
        Cell::rise(self, rt, net)
    }
}
