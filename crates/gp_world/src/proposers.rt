//! The proposers of a world.
ghost use Rattle.std.specs.Prelude.{◌≡◌, ◌<◌, length, map, IfOk, OnOk, OnErr};
ghost use Rattle.std.specs.Option.{option_to_list};
ghost use Rattle.gp_command.specs.declared.command.TheConstants.{PROPOSERS};
ghost use Rattle.gp_msg.specs.Messages.{message_of};
ghost use Rattle.gp_proposer.specs.Table.{opening, proposer_offer};
ghost use Rattle.gp_world.specs.Nodes.{states_below};
ghost use Rattle.gp_world.specs.Acting.{changed, sent_of, offering, CanOffer};

use gp_command::{Draft, NoMemory, PROPOSERS};
use gp_msg::Outs;
use gp_proposer::{Proposer, Unoffered};
use std::alloc::Global;

/// All proposers in their opening states, in the order of their numbers.
#[tactic(auto, using(crate::proofs::Numbering::states_more))]
pub fn new_all(alloc: Global) -> Result<Vec<Proposer>, NoMemory>
    ensures { IfOk result (λ all. all.items ≡ states_below PROPOSERS opening) }
{
    let mut all = Vec::new(alloc);
    for p in 0..PROPOSERS {
        all.push(Proposer::new(p))?;
    }
    Ok(all)
}

/// Proposer `p` is offered a draft. Returns what it sends. If memory runs out, nothing changes.
#[tactic(auto, using(crate::proofs::Changing::changed_at, crate::proofs::Changing::sent_from))]
pub fn offer(
    proposers: &mut [Proposer],
    alloc: Global,
    p: u32,
    draft: &Draft,
) -> Result<Outs, NoMemory>
    requires there { p < length proposers.old }
    requires can_offer { CanOffer proposers.old p }
    ensures next { OnOk result (proposers.new ≡ changed proposers.old p (λ s. (proposer_offer s draft.now).0)) }
    ensures sent { IfOk result (λ outs. map message_of outs
        ≡ option_to_list (sent_of proposers.old p (λ s. offering s draft.now))) }
    ensures unchanged { OnErr result (proposers.new ≡ proposers.old) }
{
    let draft = draft.copy()?;
    match proposers[p as usize].offer(alloc, draft) {
        Ok(outs) => Ok(outs),
        Err(Unoffered { .. }) => Err(NoMemory),
    }
}
