//! The steps of one turn.
ghost use Rattle.std.specs.Prelude.{◌≡◌, [], ◌∷◌};
ghost use Rattle.gp_wire.specs.declared.view.Standing.TheVariants.{Idle, Waiting, Serving};
ghost use Rattle.gp_wire.specs.Rule.{Slot, items, IsSomebody};
ghost use Rattle.gp_wire.specs.Told.{HasTurn};
ghost use Rattle.gp_wire.specs.Turns.{IsSame, IsIdle, at_standing, rested, Enters};

use crate::indexed::IndexedRecords;
use crate::pass::WireSeat;
use crate::plays::{Draw, Leave, Look};
use crate::rules::Rules;
use crate::wire::Wire;
use std::sync::Wait;
use std::thread;

impl<R: Rules> Wire<R> {
    // Draws the next ticket.
    fn draw<W: Wait>(&self, rt: &W, seat: &mut WireSeat) -> u64
        requires own { seat.old.table_id ≡ self.now.id }
        requires idle { (seat.old.me.0.standing ≡ Idle) × (seat.old.me.0.olds ≡ []) × IsSomebody seat.old.me.0.nodes }
        ensures same { IsSame seat.old seat.new }
        ensures ticket { seat.new.me ≡ (at_standing seat.old.me.0 (Waiting result), seat.old.me.1) }
    {
        for _ in rt.forever() {
            let next = self.table.shared.peek(0);
            if next < u64::MAX {
                let found = self
                    .table
                    .shared
                    .compare_exchange::<Draw>(seat, 0, next, next + 1);
                if found == next {
                    return next;
                }
            }
            thread::yield_now();
        }
        unreachable!()
    }

    // Waits until the ticket is served.
    fn wait<W: Wait>(&self, rt: &W, seat: &mut WireSeat, ticket: u64)
        requires own { seat.old.table_id ≡ self.now.id }
        requires waits { seat.old.me.0.standing ≡ Waiting ticket }
        ensures same { IsSame seat.old seat.new }
        ensures turn { HasTurn ticket seat.old.me seat.new.me }
    {
        for _ in rt.forever() {
            let served = self.table.shared.load::<Look>(seat, 1);
            if served == ticket {
                return;
            }
            thread::yield_now();
        }
        unreachable!()
    }

    // Takes the list out of the slot.
    fn take_out(&self, seat: &mut WireSeat) -> Option<IndexedRecords>
        requires own { seat.old.table_id ≡ self.now.id }
        requires slot { (x : Slot) × (seat.old.me.1 ≡ (0, x) ∷ []) }
        ensures same { IsSame seat.old seat.new }
        ensures list { seat.old.me.1 ≡ (0, result) ∷ [] }
        ensures empty { seat.new.me ≡ (seat.old.me.0, (0, None) ∷ []) }
    {
        self.table.shared.exchange(seat, 0, None)
    }

    /// Puts a list into the slot.
    pub(crate) fn put_back(&self, seat: &mut WireSeat, list: IndexedRecords)
        requires own { seat.old.table_id ≡ self.now.id }
        requires slot { seat.old.me.1 ≡ (0, None) ∷ [] }
        ensures same { IsSame seat.old seat.new }
        ensures full { seat.new.me ≡ (seat.old.me.0, (0, Some list) ∷ []) }
    {
        let _ = self.table.shared.exchange(seat, 0, Some(list));
    }

    /// Waits for a turn, and takes the list out of the slot. Returns the ticket and the list.
    pub(crate) fn enter<W: Wait>(&self, rt: &W, seat: &mut WireSeat) -> (u64, IndexedRecords)
        requires own { seat.old.table_id ≡ self.now.id }
        requires idle { IsIdle seat.old.me × IsSomebody seat.old.me.0.nodes }
        ensures same { IsSame seat.old seat.new }
        ensures turn { Enters seat.old.me seat.new.me result.0 result.1 }
    {
        let ticket = self.draw(rt, seat);
        self.wait(rt, seat, ticket);
        let taken = self.take_out(seat);
        let Some(list) = taken else { unreachable!() };
        (ticket, list)
    }

    /// Gives up the slot and the turn.
    pub(crate) fn pass_on(&self, seat: &mut WireSeat, ticket: u64)
        requires own { seat.old.table_id ≡ self.now.id }
        requires turn { seat.old.me.0.standing ≡ Serving ticket }
        requires slot { seat.old.me.1 ≡ (0, Some (items seat.old.me.0.seen)) ∷ [] }
        ensures same { IsSame seat.old seat.new }
        ensures left { seat.new.me ≡ (rested seat.old.me.0 ticket, []) }
    {
        let _ = self.table.shared.fetch_add::<Leave>(seat, 1, 1);
    }

    /// Puts the list back, and gives up the slot and the turn.
    pub(crate) fn leave(&self, seat: &mut WireSeat, ticket: u64, list: IndexedRecords)
        requires own { seat.old.table_id ≡ self.now.id }
        requires turn { (seat.old.me.0.standing ≡ Serving ticket) × (seat.old.me.1 ≡ (0, None) ∷ []) }
        requires list { list ≡ items seat.old.me.0.seen }
        ensures same { IsSame seat.old seat.new }
        ensures left { seat.new.me ≡ (rested seat.old.me.0 ticket, []) }
    {
        self.put_back(seat, list);
        self.pass_on(seat, ticket);
    }
}
