//! The acceptors of a world.
ghost use Rattle.std.specs.Prelude.{◌≡◌, ◌<◌, ◌^◌, ◌-◌, length, map, IfOk, OnOk, OnErr};
ghost use Rattle.std.specs.Option.{option_map, option_to_list, option_copied};
ghost use Rattle.gp_msg.specs.Messages.{message_of, part_of, epoch_of};
ghost use Rattle.gp_acceptor.specs.Epochs.{opening};
ghost use Rattle.gp_acceptor.specs.Epochs as table;
ghost use Rattle.gp_world.specs.Nodes.{states_below};
ghost use Rattle.gp_run.specs.States.{acceptor_after_crash};
ghost use Rattle.gp_world.specs.Acting.{changed, sent_of, HasRoom};

use gp_acceptor::Acceptor;
use gp_command::NoMemory;
use gp_msg::{Durable, Kept, Msg, Outs};
use gp_round::Config;
use std::alloc::Global;

/// All acceptors of a configuration in their opening states, in the order of their numbers.
#[tactic(auto, using(crate::proofs::Numbering::states_more))]
pub fn new_all(alloc: Global, config: &Config) -> Result<Vec<Acceptor>, NoMemory>
    ensures opening { IfOk result (λ all. all.items ≡ states_below config.now.acceptors (opening config.now)) }
    ensures some { 0 < config.now.acceptors }
{
    let mut all = Vec::new(alloc);
    for a in 0..config.acceptors() {
        all.push(Acceptor::new(alloc, config, a)?)?;
    }
    Ok(all)
}

/// Acceptor `a` takes the message `m`. Returns what it sends. If memory runs out, nothing changes.
#[tactic(auto, using(crate::proofs::Changing::changed_at, crate::proofs::Changing::sent_from, crate::proofs::Rooms::closes_no_last))]
pub fn take(acceptors: &mut [Acceptor], a: u32, m: &Msg) -> Result<Outs, NoMemory>
    requires there { a < length acceptors.old }
    requires room { epoch_of (message_of m.now) < 2 ^ 32 - 1 }
    ensures next { OnOk result (acceptors.new ≡ changed acceptors.old a (λ s. (table.take s (message_of m.now)).0)) }
    ensures sent { IfOk result (λ outs. map message_of outs
        ≡ option_to_list (sent_of acceptors.old a (λ s. table.take s (message_of m.now)))) }
    ensures unchanged { OnErr result (acceptors.new ≡ acceptors.old) }
{
    acceptors[a as usize].take(m)
}

/// Acceptor `a` crashes and restarts. If `kept` is `None`, its durable part is the one before the
/// crash. Otherwise it is the one after the step that `kept` names, whose message is `m`. If memory
/// runs out, nothing changes.
#[tactic(auto, using(crate::proofs::Changing::changed_at))]
pub fn fall(
    acceptors: &mut [Acceptor],
    a: u32,
    kept: Option<Kept>,
    m: Option<&Msg>,
) -> Result<(), NoMemory>
    requires there { a < length acceptors.old }
    requires room { HasRoom (option_map message_of (option_copied m)) }
    ensures next { OnOk result (acceptors.new
        ≡ changed acceptors.old a (λ s. table.fall s (acceptor_after_crash s kept (option_map message_of (option_copied m.entry))))) }
    ensures unchanged { OnErr result (acceptors.new ≡ acceptors.old) }
{
    let durable = durable_left(&acceptors[a as usize], kept, m)?;
    acceptors[a as usize].fall(durable);
    Ok(())
}

// The durable part that a crash leaves: the acceptor's, or the one after the step that the crash
// keeps.
#[tactic(auto, using(crate::proofs::Rooms::closes_no_last))]
fn durable_left(
    acceptor: &Acceptor,
    kept: Option<Kept>,
    m: Option<&Msg>,
) -> Result<Durable, NoMemory>
    requires { HasRoom (option_map message_of (option_copied m)) }
    ensures { IfOk result (λ d. part_of d ≡ acceptor_after_crash acceptor.now kept (option_map message_of (option_copied m.entry))) }
{
    match (kept, m) {
        (Some(Kept::Take(_)), Some(m)) => {
            let mut after = acceptor.copy()?;
            after.take(m)?;
            after.durable()
        }
        _ => acceptor.durable(),
    }
}
