//! Passes that meet, and the end of a wire.
ghost use Rattle.std.specs.Prelude.{◌≡◌, nat_lt, if◌then◌else◌};
ghost use Rattle.gp_msg.specs.declared.node.Node.{Node};
ghost use Rattle.gp_wire.specs.Lists.{Has};
ghost use Rattle.gp_wire.specs.Rule.{Begins};
ghost use Rattle.gp_wire.specs.Known.{old_of};
ghost use Rattle.gp_wire.specs.Passes.{met, spent};
ghost use Rattle.gp_wire.specs.Ends.{AreOf, IsHeld, Closed};

use crate::pass::Pass;
use crate::plays::{AllNodes, Both, Learn};
use crate::rules::Rules;
use crate::wire::Wire;
use gp_msg::Records;

impl<R: Rules> Wire<R> {
    /// Hands all nodes of the other pass to this one, without a turn. This pass has then seen the
    /// longer of the two lists, which begins with both. Of each node that it then holds, that list
    /// has exactly the records that the list of the node's holder had. The other pass keeps its
    /// list and then holds no node.
    pub fn meet(&self, pass: &mut Pass, other: &mut Pass)
        requires own { pass.old.wire ≡ self.now.id }
        requires own_too { other.old.wire ≡ self.now.id }
        ensures pass { pass.new ≡ met pass.old other.old }
        ensures other { other.new ≡ spent other.old }
        ensures lists { Begins pass.new.seen (old_of pass.old) × Begins pass.new.seen (old_of other.old) }
    {
        let shared = &self.table.shared;
        let all = shared.split_seat::<AllNodes>(&mut other.seat);
        shared.join_seat::<Both>(&mut pass.seat, all);
        let _ = shared.load::<Learn>(&mut pass.seat, 1);
        pass.count = longer(pass.count, other.count);
    }

    /// Closes the wire and returns its list, given passes that together hold all nodes. What each
    /// pass has seen is a beginning of that list. Of each node the list has exactly the records
    /// that the pass which holds the node has seen.
    pub fn close(self, passes: Vec<Pass>) -> Records
        requires own { AreOf self.id passes.items }
        requires all { (n : Node) → Has n self.nodes → IsHeld n passes.items }
        ensures { Closed (R.legal self.rules) self.nodes passes.items result }
    {
        let Wire { table } = self;
        let mut passes = passes;
        let Some(first) = passes.pop() else {
            unreachable!()
        };
        let Pass {
            node: _,
            seat: mut whole,
            count: _,
        } = first;
        while let Some(next) = passes.pop() {
            let Pass {
                node: _,
                seat,
                count: _,
            } = next;
            table.shared.join_seat::<Both>(&mut whole, seat);
            let _ = table.shared.load::<Learn>(&mut whole, 1);
        }
        let mut closed = table.close_with(whole);
        let taken = closed.take(0);
        closed.free();
        let Some(list) = taken else { unreachable!() };
        list.into_records()
    }
}

// The longer of two lengths.
fn longer(a: u64, b: u64) -> u64
    ensures { result ≡ (if nat_lt a b then b else a) }
{
    if a < b { b } else { a }
}
