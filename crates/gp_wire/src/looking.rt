//! Looks at the list.
ghost use Rattle.std.specs.Prelude.{◌≡◌, ◌<◌, ◌^◌, length, slice_get, IfOk};
ghost use Rattle.std.specs.Option.{option_map, option_copied};
ghost use Rattle.gp_msg.specs.Reads.{kind_of};
ghost use Rattle.gp_wire.specs.Lists.{Has};
ghost use Rattle.gp_msg.specs.Records.{messages_in};
ghost use Rattle.gp_wire.specs.Known.{records, HoldsAll};
ghost use Rattle.gp_wire.specs.Passes.{HadTurn, nothing};

use crate::pass::Pass;
use crate::rules::Rules;
use crate::wire::Wire;
use gp_command::NoMemory;
use gp_msg::{Msg, MsgKind};
use std::sync::Wait;

impl<R: Rules> Wire<R> {
    /// Message k, counted from 0, of the list that the pass has seen at the end of this call, and
    /// `None` exactly if that list has no message k. The pass has a turn, and nothing is posted.
    /// What it has seen may grow, by records of nodes that it does not hold, which were posted in
    /// turns after the pass's last one. So `None` means that no message k was posted before this
    /// turn (`laws::no_look_missed_a_message`). If it holds all nodes, what it has seen does not
    /// change. If memory runs out, the pass has had its turn too.
    pub fn read<W: Wait>(&self, rt: &W, pass: &mut Pass, k: u64) -> Result<Option<Msg>, NoMemory>
        requires own { pass.old.wire ≡ self.now.id }
        requires holds { Has pass.old.node pass.old.holds }
        ensures turn { HadTurn pass.old pass.new nothing }
        ensures whole { HoldsAll pass.old → pass.new.seen ≡ pass.old.seen }
        ensures answer { IfOk result (λ m. m ≡ slice_get (messages_in (records pass.new)) k) }
    {
        let (ticket, records) = self.enter(rt, &mut pass.seat);
        let found = copied(records.message(k));
        pass.count = records.len();
        self.leave(&mut pass.seat, ticket, records);
        found
    }

    /// As `read`, but returns only the kind of the message, and has no error.
    pub fn kind<W: Wait>(&self, rt: &W, pass: &mut Pass, k: u64) -> Option<MsgKind>
        requires own { pass.old.wire ≡ self.now.id }
        requires holds { Has pass.old.node pass.old.holds }
        ensures turn { HadTurn pass.old pass.new nothing }
        ensures whole { HoldsAll pass.old → pass.new.seen ≡ pass.old.seen }
        ensures few { length (messages_in (records pass.new)) < 2 ^ 64 }
        ensures answer { result ≡ option_map kind_of (slice_get (messages_in (records pass.new)) k) }
    {
        let (ticket, list) = self.enter(rt, &mut pass.seat);
        let _count = list.messages();
        let found = list.message(k).map(|m| m.kind());
        pass.count = list.len();
        self.leave(&mut pass.seat, ticket, list);
        found
    }
}

// A copy of a message, if there is one.
fn copied(m: Option<&Msg>) -> Result<Option<Msg>, NoMemory>
    ensures { IfOk result (λ copy. copy ≡ option_copied m.entry) }
{
    match m {
        Some(m) => match m.copy() {
            Ok(copy) => Ok(Some(copy)),
            Err(none) => Err(none),
        },
        None => Ok(None),
    }
}
