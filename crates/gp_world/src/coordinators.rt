//! The coordinators of a world.
ghost use Rattle.std.specs.Prelude.{◌≡◌, ◌<◌, ◌^◌, ◌-◌, length, map, IfOk, OnOk, OnErr};
ghost use Rattle.std.specs.Option.{option_map, option_to_list, option_copied};
ghost use Rattle.gp_msg.specs.Messages.{message_of, epoch_of};
ghost use Rattle.gp_coordinator.specs.Epochs.{opening, durable};
ghost use Rattle.gp_coordinator.specs.Epochs as table;
ghost use Rattle.gp_run.specs.TopCount.{greatest_count};
ghost use Rattle.gp_world.specs.Nodes.{states_below};
ghost use Rattle.gp_run.specs.States.{coordinator_after_crash};
ghost use Rattle.gp_world.specs.Acting.{changed, sent_of, CanBegin, HasRoom};

use gp_command::NoMemory;
use gp_coordinator::Coordinator;
use gp_msg::{Durable, Kept, Msg, Outs};
use gp_round::{Config, Round};
use std::alloc::Global;

/// All coordinators of a configuration in their opening states, in the order of their numbers.
#[tactic(auto, using(crate::proofs::Numbering::states_more))]
pub fn new_all(alloc: Global, config: &Config) -> Result<Vec<Coordinator>, NoMemory>
    ensures { IfOk result (λ all. all.items ≡ states_below config.now.coordinators (opening config.now)) }
{
    let mut all = Vec::new(alloc);
    for c in 0..config.coordinators() {
        all.push(Coordinator::new(alloc, config, c)?)?;
    }
    Ok(all)
}

/// Coordinator `c` begins a round. Returns what it sends. If memory runs out, nothing changes.
#[tactic(auto, using(crate::proofs::Changing::changed_at, crate::proofs::Changing::sent_from))]
pub fn begin(coordinators: &mut [Coordinator], c: u32, round: Round) -> Result<Outs, NoMemory>
    requires there { c < length coordinators.old }
    requires can_begin { CanBegin coordinators.old c round }
    ensures next { OnOk result (coordinators.new ≡ changed coordinators.old c (λ s. (table.begin s round).0)) }
    ensures sent { IfOk result (λ outs. map message_of outs
        ≡ option_to_list (sent_of coordinators.old c (λ s. table.begin s round))) }
    ensures unchanged { OnErr result (coordinators.new ≡ coordinators.old) }
{
    coordinators[c as usize].begin(round)
}

/// Coordinator `c` takes the message `m`. Returns what it sends. If memory runs out, nothing
/// changes.
#[tactic(auto, using(crate::proofs::Changing::changed_at, crate::proofs::Changing::sent_from, crate::proofs::Rooms::closes_no_last))]
pub fn take(coordinators: &mut [Coordinator], c: u32, m: &Msg) -> Result<Outs, NoMemory>
    requires there { c < length coordinators.old }
    requires room { epoch_of (message_of m.now) < 2 ^ 32 - 1 }
    ensures next { OnOk result (coordinators.new
        ≡ changed coordinators.old c (λ s. (table.take s (message_of m.now)).0)) }
    ensures sent { IfOk result (λ outs. map message_of outs
        ≡ option_to_list (sent_of coordinators.old c (λ s. table.take s (message_of m.now)))) }
    ensures unchanged { OnErr result (coordinators.new ≡ coordinators.old) }
{
    coordinators[c as usize].take(m)
}

/// Coordinator `c` crashes and restarts. If `kept` is `None`, its durable part is the one before
/// the crash. Otherwise it is the one after the step that `kept` names, whose message is `m`. If
/// memory runs out, nothing changes.
#[tactic(auto, using(crate::proofs::Changing::changed_at))]
pub fn fall(
    coordinators: &mut [Coordinator],
    c: u32,
    kept: Option<Kept>,
    m: Option<&Msg>,
) -> Result<(), NoMemory>
    requires there { c < length coordinators.old }
    requires room { HasRoom (option_map message_of (option_copied m)) }
    ensures next { OnOk result (coordinators.new
        ≡ changed coordinators.old c (λ s. table.fall s (coordinator_after_crash s kept (option_map message_of (option_copied m.entry))))) }
    ensures unchanged { OnErr result (coordinators.new ≡ coordinators.old) }
{
    fall_one(&mut coordinators[c as usize], kept, m)
}

/// The greatest count among the rounds of the coordinators, and 0 if there are no coordinators.
pub fn top_count(coordinators: &[Coordinator]) -> u32
    ensures { result ≡ greatest_count (map (λ s. s.state.round) coordinators.now) }
{
    let mut top = 0;
    for coordinator in coordinators {
        top = top.max(coordinator.round().count);
    }
    top
}

// A coordinator crashes. Its epoch and its round stay, or are those after the step that the crash
// keeps.
fn fall_one(
    coordinator: &mut Coordinator,
    kept: Option<Kept>,
    m: Option<&Msg>,
) -> Result<(), NoMemory>
    requires { HasRoom (option_map message_of (option_copied m)) }
    ensures next { OnOk result (coordinator.new
        ≡ table.fall coordinator.old (coordinator_after_crash coordinator.old kept (option_map message_of (option_copied m.entry)))) }
    ensures unchanged { OnErr result (coordinator.new ≡ coordinator.old) }
{
    match (kept, m) {
        (Some(Kept::Take(_)), Some(m)) => fall_after(coordinator, m),
        (Some(Kept::Begin(round)), _) if coordinator.round() < round => {
            let epoch = coordinator.epoch();
            coordinator.fall(Durable::Coordinator { epoch, round });
            Ok(())
        }
        _ => {
            coordinator.fall(coordinator.durable());
            Ok(())
        }
    }
}

// A coordinator crashes after it has taken a message.
#[tactic(auto, using(crate::proofs::Falling::falls_after, crate::proofs::Rooms::closes_no_last))]
fn fall_after(coordinator: &mut Coordinator, m: &Msg) -> Result<(), NoMemory>
    requires { epoch_of (message_of m.now) < 2 ^ 32 - 1 }
    ensures next { OnOk result (coordinator.new
        ≡ table.fall coordinator.old (durable (table.take coordinator.old (message_of m.now)).0)) }
    ensures unchanged { OnErr result (coordinator.new ≡ coordinator.old) }
{
    coordinator.take(m)?;
    coordinator.fall(coordinator.durable());
    Ok(())
}
