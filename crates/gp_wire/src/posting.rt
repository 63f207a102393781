//! Posts to the list.
ghost use Rattle.std.specs.Prelude.{◌≡◌, ◌++◌, [], ◌∷◌, length, IfOk, IfErr};
ghost use Rattle.gp_wire.specs.Lists.{Has};
ghost use Rattle.gp_msg.specs.Records.{messages_in};
ghost use Rattle.gp_wire.specs.Known.{records, HoldsAll};
ghost use Rattle.gp_wire.specs.Passes.{HadTurn, nothing, only};

use crate::pass::Pass;
use crate::plays::Append;
use crate::rules::Rules;
use crate::wire::Wire;
use gp_msg::Record;
use std::sync::Wait;

/// A record that was not posted because memory ran out.
#[derive(Drop)]
pub struct Unposted {
    pub item: Record,
}

impl<R: Rules> Wire<R> {
    /// Posts a record of the pass's node, which is legal after what the pass has seen. Returns how
    /// many messages the list then has. The pass has a turn, and the record is the last one that it
    /// has then seen. The record is still legal there, since only legal records of other nodes came
    /// between. If memory runs out, nothing is posted and the record comes back. The pass has then
    /// had its turn as by `read`.
    pub fn append<W: Wait>(&self, rt: &W, pass: &mut Pass, item: Record) -> Result<u64, Unposted>
        requires own { pass.old.wire ≡ self.now.id }
        requires holds { Has pass.old.node pass.old.holds }
        requires node { item.node ≡ pass.old.node }
        requires legal { R.legal self.now.rules (records pass.old) item }
        ensures posted { IfOk result (λ n. HadTurn pass.old pass.new (only item)) }
        ensures count { IfOk result (λ n. n ≡ length (messages_in (records pass.new))) }
        ensures whole { IfOk result (λ n. HoldsAll pass.old → records pass.new ≡ records pass.old ++ item ∷ []) }
        ensures refused { IfErr result (λ u. HadTurn pass.old pass.new nothing) }
        ensures refused_whole { IfErr result (λ u. HoldsAll pass.old → pass.new.seen ≡ pass.old.seen) }
        ensures back { IfErr result (λ u. u.item ≡ item) }
    {
        let (ticket, mut list) = self.enter(rt, &mut pass.seat);
        match list.push(item) {
            Err(item) => {
                pass.count = list.len();
                self.leave(&mut pass.seat, ticket, list);
                Err(Unposted { item })
            }
            Ok(()) => {
                let count = list.messages();
                pass.count = list.len();
                self.put_back(&mut pass.seat, list);
                let _ = self.table.shared.fetch_add::<Append>(&mut pass.seat, 2, 1);
                self.pass_on(&mut pass.seat, ticket);
                Ok(count)
            }
        }
    }
}
