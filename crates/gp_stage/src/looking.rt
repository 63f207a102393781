//! A look at every message.
ghost use Rattle.std.specs.Prelude.{◌≡◌, map, IfOk, OnOk};
ghost use Rattle.gp_msg.specs.Messages.{message_of};
ghost use Rattle.gp_msg.specs.Reads.{kind_of};
ghost use Rattle.gp_run.specs.TopCount.{top_of_messages};
ghost use Rattle.gp_wire.specs.Lists.{Each, Has};
ghost use Rattle.gp_msg.specs.Records.{messages_in};
ghost use Rattle.gp_wire.specs.Known.{records, HoldsAll};
ghost use Rattle.gp_cell.specs.Cells.{IsSameBut};
ghost use Rattle.gp_stage.specs.Gathered.{HasLooked};

use crate::tops::top_of_message;
use gp_cell::{Cell, PaxosRules};
use gp_command::NoMemory;
use gp_edge::Disk;
use gp_msg::MsgKind;
use gp_wire::Wire;
use std::alloc::Global;
use std::sync::Wait;

/// The kinds of the messages of a list, and the greatest count of a round in them.
#[derive(Drop)]
pub(crate) struct Seen {
    /// Their kinds, in their order.
    pub kinds: Vec<MsgKind>,
    /// The greatest count of a round in them, and 0 if there is none.
    pub top: u32,
}

/// A cell whose pass holds all nodes looks at every message. Only its pass changes. If memory runs
/// out, some of the messages may not have been looked at.
pub(crate) fn look_at_all<D: Disk, W: Wait>(
    alloc: Global,
    rt: &W,
    wire: &Wire<PaxosRules>,
    cell: &mut Cell<D>,
) -> Result<Seen, NoMemory>
    requires own { cell.old.pass.wire ≡ wire.now.id }
    requires holds { Has cell.old.pass.node cell.old.pass.holds }
    requires whole { HoldsAll cell.old.pass }
    ensures rest { IsSameBut cell.old cell.new }
    ensures pass { HasLooked cell.old.pass cell.new.pass }
    ensures inside { OnOk result (Each (λ e. Has e.item.node cell.new.pass.all) cell.new.pass.seen) }
    ensures kinds { IfOk result (λ s. s.kinds.items ≡ map kind_of (messages_in (records cell.new.pass))) }
    ensures top { IfOk result (λ s. s.top ≡ top_of_messages (map message_of (messages_in (records cell.new.pass)))) }
{
    let mut kinds = Vec::new(alloc);
    let mut top = 0;
    for k in 0..u64::MAX {
        let Some(m) = cell.look(rt, wire, k)? else {
            return Ok(Seen { kinds, top });
        };
        top = top.max(top_of_message(&m));
        kinds.push(m.kind())?;
    }
    Err(NoMemory)
}
