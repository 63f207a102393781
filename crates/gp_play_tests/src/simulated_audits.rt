//! Runs that are made from numbers, with crashes and checkpoints.
use crate::stage::holds;
use gp_audit::{Cause, Proof, certify};
use gp_round::{Mode, Round};
use gp_sim::simulate;
use gp_text::{report, trace};
use gp_verdict::audit;
use gp_world::World;
use std::alloc::Global;
use std::sync::Wait;
use std::test::Fail;

const RUNS: u64 = 100;

const COMMANDS: u32 = 40;

fn mode_name(mode: Mode) -> &'static str {
    match mode {
        Mode::Single => "single",
        Mode::Multi => "multi",
        Mode::Fast => "fast",
    }
}

// The line of a certificate.
fn proof_line(alloc: Global, learner: u32, proof: &Proof) -> Result<String, Fail> {
    let cause = cause_text(alloc, proof.cause)?;
    let id = proof.id;
    let at = proof.at;
    Ok(format!(in alloc;
        "l{learner} p{}.{} at {at} {cause}\n",
        id.proposer, id.number
    )?)
}

fn cause_text(alloc: Global, cause: Cause) -> Result<String, Fail> {
    match cause {
        Cause::Quorum { epoch, round, mask } => quorum_text(alloc, epoch, round, mask),
        Cause::Final { message } => Ok(format!(in alloc; "final {message}")?),
    }
}

fn quorum_text(alloc: Global, epoch: u32, round: Round, mask: u8) -> Result<String, Fail> {
    let name = mode_name(round.mode);
    let count = round.count;
    let lead = round.lead;
    Ok(format!(in alloc; "epoch {epoch} round {count}.{name}.{lead} quorum {mask}")?)
}

fn write_proofs(
    alloc: Global,
    learner: u32,
    proofs: &[Proof],
    text: &mut Vec<u8>,
) -> Result<(), Fail> {
    for proof in proofs {
        let line = proof_line(alloc, learner, proof)?;
        text.extend_from_slice(line.as_bytes())?;
    }
    Ok(())
}

fn write_certified(alloc: Global, world: &World, text: &mut Vec<u8>) -> Result<(), Fail> {
    text.extend_from_slice(b"legal\n")?;
    for learner in 0..world.config().learners() {
        let proofs = certify(alloc, world, learner)?;
        write_proofs(alloc, learner, proofs.as_slice(), text)?;
    }
    Ok(())
}

// What a world prints.
fn print(alloc: Global, world: &World, input: &mut Vec<u8>) -> Result<(), Fail> {
    trace(alloc, world.config(), world.records(), input)?;
    input.extend_from_slice(b"--\n")?;
    report(alloc, world, input)?;
    Ok(())
}

// Whether what the world prints is upheld, with its certificates.
fn is_upheld(alloc: Global, world: &World) -> Result<bool, Fail> {
    let mut input = Vec::new(alloc);
    print(alloc, world, &mut input)?;
    is_certified(alloc, world, &input)
}

// Whether the input is upheld, and the text is this.
fn upholds(alloc: Global, input: &[u8], text: &[u8]) -> bool {
    match audit(alloc, input) {
        Ok(audited) => audited.text.as_slice() == text,
        Err(_) => false,
    }
}

fn is_certified(alloc: Global, world: &World, input: &[u8]) -> Result<bool, Fail> {
    let mut text = Vec::new(alloc);
    write_certified(alloc, world, &mut text)?;
    Ok(upholds(alloc, input, &text))
}

fn run_is_upheld(rt: &impl Wait, alloc: Global, seed: u64) -> Result<bool, Fail> {
    let world = simulate(rt, alloc, seed, COMMANDS)?;
    is_upheld(alloc, &world)
}

fn all_are_upheld(rt: &impl Wait, alloc: Global) -> Result<bool, Fail> {
    for seed in 0..RUNS {
        if !run_is_upheld(rt, alloc, seed)? {
            return Ok(false);
        }
    }
    Ok(true)
}

#[test]
fn runs_from_numbers_are_upheld(rt: HostRuntime) -> Result<(), Fail> {
    holds(&rt, all_are_upheld(&rt, rt.alloc()))
}
