//! Certificates of what a learner learned.
ghost use Rattle.std.specs.Prelude.{◌≡◌, ◌<◌, ◌≤◌, IfOk, take};
ghost use Rattle.std.specs.List.{filter_map};
ghost use Rattle.gp_history.specs.Canonical.{canonical};
ghost use Rattle.gp_history.specs.Sequence.{history_of};
ghost use Rattle.gp_world.specs.State.{entries_of};
ghost use Rattle.gp_audit.specs.Certificates.{AreProofs};
ghost use Rattle.gp_audit.specs.Replays.{IsReplayed};
ghost use Rattle.gp_audit.specs.Sources.{proof_under};

use crate::proof::{Proof, Proofs};
use crate::replay::Replay;
use gp_command::{CommandId, NoMemory};
use gp_history::Hist;
use gp_index::History;
use gp_world::World;
use std::alloc::Global;

/// The certificates of a learner of the world's configuration. For each command that the learner
/// has learned, in canonical order, a certificate names the record by which the learner came to
/// hold the command since it last started, and the cause. `NoMemory` means that memory ran out, or
/// that the learner was in epoch 2^32 - 1, the last one.
pub fn certify(alloc: Global, world: &World, learner: u32) -> Result<Proofs, NoMemory>
    requires { learner < world.now.config.learners }
    ensures { IfOk result (λ proofs. AreProofs world.now.config (entries_of world.now) learner proofs) }
{
    let replay = replay_of(alloc, world, learner)?;
    proofs_in_order(alloc, world.learned(learner), &replay.proofs)
}

// The proofs of the commands of a history, in canonical order. `NoMemory` if memory runs out.
fn proofs_in_order(alloc: Global, learned: &History, proofs: &[Proof]) -> Result<Proofs, NoMemory>
    ensures { IfOk result (λ found. found ≡ filter_map (λ c. proof_under c.id proofs.now) (canonical (history_of learned.now))) }
{
    let commands = learned.in_order()?;
    Ok(Proofs::from(proofs_of(alloc, &commands, proofs)?))
}

// The proofs of these commands, in their order.
fn proofs_of(alloc: Global, commands: &History, proofs: &[Proof]) -> Result<Vec<Proof>, NoMemory>
    ensures { IfOk result (λ found. found.items ≡ filter_map (λ c. proof_under c.id proofs.now) commands.now) }
{
    let mut found = Vec::new(alloc);
    for i in 0..commands.len() {
        let id = commands.at(i).id();
        if let Some(proof) = proof_under(id, proofs) {
            found.push(proof)?;
        }
    }
    Ok(found)
}

// The replay of the learner over all records of the world.
fn replay_of(alloc: Global, world: &World, learner: u32) -> Result<Replay, NoMemory>
    ensures { IfOk result (λ r. IsReplayed world.now.config (entries_of world.now) learner r) }
{
    let mut replay = Replay::new(alloc, world.config(), learner)?;
    for at in 0..world.records().len() {
        replay.step(world, at)?;
    }
    Ok(replay)
}

// The proof of the command with this identity.
fn proof_under(id: CommandId, proofs: &[Proof]) -> Option<Proof>
    ensures { result ≡ proof_under id proofs.now }
{
    for proof in proofs {
        if proof.id == id {
            return Some(*proof);
        }
    }
    None
}
