//! What a caller sees of the messages of a wire.
ghost use Rattle.std.specs.Prelude.{◌≡◌, ◌↔◌, ◌+◌, false, IsTrue, IfOk, OnOk, OnErr, None};
ghost use Rattle.gp_wire.specs.Lists.{Has};
ghost use Rattle.gp_wire.specs.Known.{records};
ghost use Rattle.gp_cell.specs.Cells.{IsSameBut};
ghost use Rattle.gp_cell.specs.Passing.{GoesOn};
ghost use Rattle.gp_msg.specs.Messages.{message_of};
ghost use Rattle.gp_collide.specs.Watched.{opening, after_message};
ghost use Rattle.gp_collide.specs.Clashes.{HasClash};
ghost use Rattle.gp_caller.specs.Sights.{Saw, SawAll};
ghost use Rattle.gp_wire.specs.Own.{own};

use gp_cell::{Cell, PaxosRules};
use gp_collide::Watch;
use gp_command::NoMemory;
use gp_edge::Disk;
use gp_msg::Msg;
use gp_round::Round;
use gp_wire::Wire;
use std::alloc::Global;
use std::marker::Model;
use std::sync::Wait;

/// A watch over one round of one epoch that sees the messages of a wire in their order.
#[derive(Drop)]
pub struct Sight {
    watch: Watch,
    // how many messages the watch saw
    looked: u64,
}

impl Model for Sight {
    ghost use Rattle.gp_caller.specs.Sights.{SightState};
    ghost use Rattle.gp_caller.specs.Codes.{sight_code};

    ghost Value = { SightState };

    ghost coded = { sight_code };

    ghost view = { λ s. record { watch = s.watch; looked = s.looked } };
}

impl Sight {
    /// A watch over this round of this epoch that has seen nothing.
    pub(crate) fn new(alloc: Global, epoch: u32, round: Round) -> Result<Sight, NoMemory>
        ensures { IfOk result (λ s. s ≡ record { watch = opening (epoch, round); looked = 0 }) }
    {
        let watch = Watch::new(alloc, epoch, round)?;
        Ok(Sight { watch, looked: 0 })
    }

    /// Shows the watch each message that it has not seen. The cell has turns at the wire, and
    /// nothing else of the cell changes.
    pub(crate) fn look<D: Disk, W: Wait>(
        &mut self,
        rt: &W,
        wire: &Wire<PaxosRules>,
        cell: &mut Cell<D>,
    ) -> Result<(), NoMemory>
        requires own { cell.old.pass.wire ≡ wire.now.id }
        requires holds { Has cell.old.pass.node cell.old.pass.holds }
        requires saw { Saw self.old (records cell.old.pass) }
        ensures rest { IsSameBut cell.old cell.new }
        ensures pass { GoesOn cell.old.pass cell.new.pass }
        ensures own { own cell.new.node (records cell.new.pass) ≡ own cell.old.node (records cell.old.pass) }
        ensures round { self.new.watch.round ≡ self.old.watch.round }
        ensures saw { Saw self.new (records cell.new.pass) }
        ensures all { OnOk result (SawAll self.new (records cell.new.pass)) }
    {
        for _ in rt.forever() {
            if !self.look_at_one(rt, wire, cell)? {
                return Ok(());
            }
        }
        unreachable!()
    }

    // Shows the watch one more message, and returns whether there was one.
    fn look_at_one<D: Disk, W: Wait>(
        &mut self,
        rt: &W,
        wire: &Wire<PaxosRules>,
        cell: &mut Cell<D>,
    ) -> Result<bool, NoMemory>
        requires own { cell.old.pass.wire ≡ wire.now.id }
        requires holds { Has cell.old.pass.node cell.old.pass.holds }
        requires saw { Saw self.old (records cell.old.pass) }
        ensures rest { IsSameBut cell.old cell.new }
        ensures pass { GoesOn cell.old.pass cell.new.pass }
        ensures own { own cell.new.node (records cell.new.pass) ≡ own cell.old.node (records cell.old.pass) }
        ensures round { self.new.watch.round ≡ self.old.watch.round }
        ensures saw { Saw self.new (records cell.new.pass) }
        ensures all { IfOk result (λ more. more ≡ false → SawAll self.new (records cell.new.pass)) }
    {
        let message = match cell.look(rt, wire, self.looked) {
            Ok(Some(message)) => message,
            Ok(None) => return Ok(false),
            Err(none) => return Err(none),
        };
        let shown = self.show(&message);
        drop(message);
        match shown {
            Ok(()) => Ok(true),
            Err(none) => Err(none),
        }
    }

    // Shows the watch the message after those that it saw.
    fn show(&mut self, message: &Msg) -> Result<(), NoMemory>
        ensures shown { OnOk result (self.new ≡ record { watch = after_message self.old.watch (message_of message.now); looked = self.old.looked + 1 }) }
        ensures unchanged { OnErr result (self.new ≡ self.old) }
    {
        let Some(next) = self.looked.checked_add(1) else {
            return Err(NoMemory);
        };
        self.watch.see(message)?;
        self.looked = next;
        Ok(())
    }

    /// Whether two values of the round that it saw are incompatible.
    pub(crate) fn clashed(&self) -> bool
        ensures { IsTrue result ↔ HasClash self.now.watch }
    {
        self.watch.clashed()
    }
}
