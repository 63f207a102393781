//! Learned lines: the commands that a learner learned.
ghost use Rattle.std.specs.Prelude.{◌≡◌, ◌<◌, ◌++◌, map, OnOk, OnErr};
ghost use Rattle.gp_history.specs.Sequence.{history_of};
ghost use Rattle.gp_words.specs.Beginnings.{AppendsBeginning};
ghost use Rattle.gp_words.specs.Spacing.{spaced};
ghost use Rattle.gp_world.specs.State.{entries_of};
ghost use Rattle.gp_report.specs.Texts.{identity, identities, commands_line, learned_text};

use gp_command::{CommandId, NoMemory};
use gp_history::Hist;
use gp_index::History;
use gp_words::{push_dash, push_gap, push_number};
use gp_world::World;
use std::alloc::Global;

/// Appends the identity of a command: `pN.M` is number M of proposer N. If memory runs out, `to`
/// may hold the beginning of this text.
pub fn push_identity(id: CommandId, to: &mut Vec<u8>) -> Result<(), NoMemory>
    ensures written { OnOk result (to.new.items ≡ to.old.items ++ identity id) }
    ensures begun { OnErr result (AppendsBeginning to.old.items to.new.items (identity id)) }
{
    to.push(b'p')?;
    push_number(u64::from(id.proposer), to)?;
    to.push(b'.')?;
    push_number(u64::from(id.number), to)
}

fn push_identities(commands: &History, to: &mut Vec<u8>) -> Result<(), NoMemory>
    ensures { OnOk result (to.new.items ≡ to.old.items ++ spaced (map (λ c. identity c.id) commands.now)) }
{
    for i in 0..commands.len() {
        push_gap(i, to)?;
        push_identity(commands.at(i).id(), to)?;
    }
    push_dash(commands.len(), to)
}

/// Appends the identities of the commands of a history, in canonical order with single spaces
/// between them, or `-` if there is none. If memory runs out, `to` stays as it was.
pub fn identities(alloc: Global, history: &History, to: &mut Vec<u8>) -> Result<(), NoMemory>
    ensures written { OnOk result (to.new.items ≡ to.old.items ++ identities (history_of history.now)) }
    ensures unchanged { OnErr result (to.new.items ≡ to.old.items) }
{
    let ordered = history.in_order()?;
    let mut text = Vec::new(alloc);
    push_identities(&ordered, &mut text)?;
    to.extend_from_slice(&text)?;
    Ok(())
}

// Appends the learned line of a learner that learned these commands, in their order.
#[tactic(auto, unfolding(crate::specs::Texts::commands_line))]
pub(crate) fn push_commands(
    learner: u32,
    commands: &History,
    to: &mut Vec<u8>,
) -> Result<(), NoMemory>
    ensures { OnOk result (to.new.items ≡ to.old.items ++ commands_line learner commands.now) }
{
    to.push(b'l')?;
    push_number(u64::from(learner), to)?;
    to.extend_from_slice(b" learned ")?;
    push_number(commands.len() as u64, to)?;
    to.extend_from_slice(b": ")?;
    push_identities(commands, to)?;
    Ok(to.push(b'\n')?)
}

/// Appends the learned line of a learner of the world's configuration: how many commands it has
/// learned, and their identities in canonical order. If memory runs out, `to` stays as it was.
pub fn show_learned(
    alloc: Global,
    world: &World,
    learner: u32,
    to: &mut Vec<u8>,
) -> Result<(), NoMemory>
    requires { learner < world.now.config.learners }
    ensures written { OnOk result (to.new.items ≡ to.old.items ++ learned_text world.now.config (entries_of world.now) learner) }
    ensures unchanged { OnErr result (to.new.items ≡ to.old.items) }
{
    let ordered = world.learned(learner).in_order()?;
    let mut line = Vec::new(alloc);
    push_commands(learner, &ordered, &mut line)?;
    to.extend_from_slice(&line)?;
    Ok(())
}
