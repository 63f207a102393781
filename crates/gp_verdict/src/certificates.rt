//! The text of the certificates.
ghost use Rattle.std.specs.Prelude.{◌≡◌, ◌<◌, ◌++◌, List, ℕ, OnOk, IfOk};
ghost use Rattle.gp_world.specs.State.{entries_of};
ghost use Rattle.gp_verdict.specs.Certified.{cause_words, name_words, proof_line, AreProofLines, IsCertified};

use gp_audit::{Cause, Proof, certify};
use gp_command::{CommandId, NoMemory};
use gp_report::push_identity;
use gp_text::push_dotted;
use gp_words::push_number;
use gp_world::World;
use std::alloc::Global;

fn push_cause(cause: Cause, to: &mut Vec<u8>) -> Result<(), NoMemory>
    ensures { OnOk result (to.new.items ≡ to.old.items ++ cause_words cause) }
{
    match cause {
        Cause::Quorum { epoch, round, mask } => {
            to.extend_from_slice(b" epoch ")?;
            push_number(u64::from(epoch), to)?;
            to.extend_from_slice(b" round ")?;
            push_dotted(round, to)?;
            to.extend_from_slice(b" quorum ")?;
            push_number(u64::from(mask), to)
        }
        Cause::Final { message } => {
            to.extend_from_slice(b" final ")?;
            push_number(message, to)
        }
    }
}

// A learner and its command.
fn push_name(learner: u32, id: CommandId, to: &mut Vec<u8>) -> Result<(), NoMemory>
    ensures { OnOk result (to.new.items ≡ to.old.items ++ name_words learner id) }
{
    to.push(b'l')?;
    push_number(u64::from(learner), to)?;
    to.push(b' ')?;
    push_identity(id, to)
}

fn push_proof(learner: u32, proof: Proof, to: &mut Vec<u8>) -> Result<(), NoMemory>
    ensures { OnOk result (to.new.items ≡ to.old.items ++ proof_line learner proof) }
{
    push_name(learner, proof.id, to)?;
    to.extend_from_slice(b" at ")?;
    push_number(proof.at, to)?;
    push_cause(proof.cause, to)?;
    Ok(to.push(b'\n')?)
}

// The lines of a learner.
fn learner_lines(alloc: Global, world: &World, learner: u32) -> Result<Vec<u8>, NoMemory>
    requires { learner < world.now.config.learners }
    ensures { IfOk result (λ lines. AreProofLines world.now.config (entries_of world.now) learner lines.items) }
{
    let proofs = certify(alloc, world, learner)?;
    let mut lines = Vec::new(alloc);
    for proof in proofs.as_slice() {
        push_proof(learner, *proof, &mut lines)?;
    }
    Ok(lines)
}

/// The text of an upheld world: the word `legal`, and then, for each learner and each of its
/// commands in canonical order, a line that says by which record and which message the learner came
/// to hold the command.
pub fn certificates(alloc: Global, world: &World) -> Result<Vec<u8>, NoMemory>
    ensures { IfOk result (λ text. IsCertified world.now.config (entries_of world.now) text.items) }
{
    let mut text = Vec::new(alloc);
    text.extend_from_slice(b"legal\n")?;
    for learner in 0..world.config().learners() {
        let lines = learner_lines(alloc, world, learner)?;
        text.extend_from_slice(&lines)?;
    }
    Ok(text)
}
