//! The learners of a world.
ghost use Rattle.std.specs.Prelude.{◌≡◌, ◌<◌, ◌^◌, ◌-◌, length, map, slice_get, Some, IfOk, OnOk, OnErr};
ghost use Rattle.std.specs.Option.{option_map, option_to_list};
ghost use Rattle.gp_history.specs.Sequence.{history_of};
ghost use Rattle.gp_msg.specs.Messages.{message_of, epoch_of};
ghost use Rattle.gp_learner.specs.Epochs.{opening};
ghost use Rattle.gp_learner.specs.Epochs as learner;
ghost use Rattle.gp_world.specs.Nodes.{states_below};
ghost use Rattle.gp_world.specs.Acting.{changed, sent_of};

use gp_command::NoMemory;
use gp_index::History;
use gp_learner::Learner;
use gp_msg::{Msg, Outs};
use gp_round::Config;
use std::alloc::Global;

/// All learners of a configuration in their opening states, in the order of their numbers.
#[tactic(auto, using(crate::proofs::Numbering::states_more))]
pub fn new_all(alloc: Global, config: &Config) -> Result<Vec<Learner>, NoMemory>
    ensures { IfOk result (λ all. all.items ≡ states_below config.now.learners (opening config.now)) }
{
    let mut all = Vec::new(alloc);
    for l in 0..config.learners() {
        all.push(Learner::new(alloc, config, l)?)?;
    }
    Ok(all)
}

/// Learner `l` takes the message `m`. Returns what it sends. If memory runs out, nothing changes.
#[tactic(auto, using(crate::proofs::Changing::changed_at, crate::proofs::Changing::sent_from, crate::proofs::Rooms::learner_can_take))]
pub fn take(learners: &mut [Learner], l: u32, m: &Msg) -> Result<Outs, NoMemory>
    requires there { l < length learners.old }
    requires room { epoch_of (message_of m.now) < 2 ^ 32 - 1 }
    ensures next { OnOk result (learners.new ≡ changed learners.old l (λ s. (learner.take s (message_of m.now)).0)) }
    ensures sent { IfOk result (λ outs. map message_of outs
        ≡ option_to_list (sent_of learners.old l (λ s. learner.take s (message_of m.now)))) }
    ensures unchanged { OnErr result (learners.new ≡ learners.old) }
{
    learners[l as usize].take(m)
}

/// Learner `l` crashes: it returns to its opening state.
#[tactic(auto, using(crate::proofs::Changing::changed_at))]
pub fn fall(learners: &mut [Learner], l: u32)
    requires { l < length learners.old }
    ensures { learners.new ≡ changed learners.old l learner.fall }
{
    learners[l as usize].fall();
}

/// The history that learner `l` shows.
pub fn learned(learners: &[Learner], l: u32) -> &History
    requires { l < length learners.now }
    ensures { option_map (λ s. s.learned) (slice_get learners.now l) ≡ Some (history_of result.now) }
{
    learners[l as usize].learned()
}
