//! The complete report of a world.
ghost use Rattle.std.specs.Prelude.{◌≡◌, ◌<◌, ◌++◌, length, OnOk, OnErr, IfOk};
ghost use Rattle.gp_history.specs.Sequence.{history_of};
ghost use Rattle.gp_replica.specs.Runs.{HasDistinctIds};
ghost use Rattle.gp_run.specs.Messages.{messages};
ghost use Rattle.gp_world.specs.State.{entries_of};
ghost use Rattle.gp_report.specs.Texts.{history_lines, learner_text, totals_line, report_for, report};

use crate::learned::push_commands;
use crate::replicas::replica_of;
use crate::replies::push_replies;
use crate::states::push_state;
use gp_command::NoMemory;
use gp_index::History;
use gp_service::Service;
use gp_store::KeyStore;
use gp_words::push_number;
use gp_world::World;
use std::alloc::Global;

// Appends the lines of a learner that learned this history, as a replica runs it.
fn push_lines<S: Service>(
    alloc: Global,
    learner: u32,
    learned: &History,
    to: &mut Vec<u8>,
) -> Result<(), NoMemory>
    requires { HasDistinctIds (history_of learned.now) }
    ensures { OnOk result (to.new.items ≡ to.old.items ++ history_lines S.profile learner (history_of learned.now)) }
{
    let replica = replica_of::<S>(alloc, learned)?;
    push_commands(learner, replica.ran(), to)?;
    push_state(learner, replica.machine(), to)?;
    push_replies(learner, replica.replies(), to)?;
    S::push_totals(learner, &replica, to)
}

fn push_learner<S: Service>(
    alloc: Global,
    world: &World,
    learner: u32,
    to: &mut Vec<u8>,
) -> Result<(), NoMemory>
    requires { learner < world.now.config.learners }
    ensures { OnOk result (to.new.items ≡ to.old.items ++ learner_text S.profile world.now.config (entries_of world.now) learner) }
{
    push_lines::<S>(alloc, learner, world.learned(learner), to)
}

pub(crate) fn push_totals(world: &World, to: &mut Vec<u8>) -> Result<(), NoMemory>
    ensures { OnOk result (to.new.items ≡ to.old.items ++ totals_line (length (entries_of world.now)) (length (messages (entries_of world.now)))) }
{
    to.extend_from_slice(b"events ")?;
    push_number(world.records().len() as u64, to)?;
    to.extend_from_slice(b" messages ")?;
    push_number(world.messages(), to)?;
    Ok(to.push(b'\n')?)
}

#[tactic(auto, unfolding(crate::specs::Texts::report_for))]
fn report_of<S: Service>(alloc: Global, world: &World) -> Result<Vec<u8>, NoMemory>
    ensures { IfOk result (λ text. text.items ≡ report_for S.profile world.now.config (entries_of world.now)) }
{
    let mut text = Vec::new(alloc);
    for learner in 0..world.config().learners() {
        push_learner::<S>(alloc, world, learner, &mut text)?;
    }
    push_totals(world, &mut text)?;
    Ok(text)
}

/// Appends the report of a world whose learners run this service: for each learner, in order, its
/// lines, and then the numbers of events and messages.
///
/// The learned line has the number of commands that the learner learned and their identities, in
/// canonical order. The state line has the pairs that the service holds after these commands, in
/// ascending order of the keys. The replies line has its reply to each command, in canonical order.
/// The service's own lines follow, if it has any. If memory runs out, `to` stays as it was.
pub fn report_for<S: Service>(
    alloc: Global,
    world: &World,
    to: &mut Vec<u8>,
) -> Result<(), NoMemory>
    ensures written { OnOk result (to.new.items ≡ to.old.items ++ report_for S.profile world.now.config (entries_of world.now)) }
    ensures unchanged { OnErr result (to.new.items ≡ to.old.items) }
{
    let text = report_of::<S>(alloc, world)?;
    to.extend_from_slice(&text)?;
    Ok(())
}

/// Appends the report of a world whose learners run key stores, with three lines for each learner.
/// If memory runs out, `to` stays as it was.
pub fn report(alloc: Global, world: &World, to: &mut Vec<u8>) -> Result<(), NoMemory>
    ensures written { OnOk result (to.new.items ≡ to.old.items ++ report world.now.config (entries_of world.now)) }
    ensures unchanged { OnErr result (to.new.items ≡ to.old.items) }
{
    report_for::<KeyStore>(alloc, world, to)
}
