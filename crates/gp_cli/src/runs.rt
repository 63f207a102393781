//! The subcommands that play a script, drive commands, or settle a workload.
ghost use Rattle.std.specs.Prelude.{◌≡◌, ◌≤◌, [], None, IfOk, IfErr};
ghost use Rattle.gp_round.specs.Configs.{bad_count};
ghost use Rattle.gp_report.specs.Texts.{report};
ghost use Rattle.gp_report.specs.Summaries.{summary};
ghost use Rattle.gp_sim.specs.Driven.{driven};
ghost use Rattle.gp_sim.specs.Simulated.{sim_config, simulated};
ghost use Rattle.gp_text.specs.Playing.{PlaysFor};
ghost use Rattle.gp_text.specs.Limits.{SaysLegallyFor};
ghost use Rattle.gp_world.specs.State.{entries_of};
ghost use Rattle.gp_cli.specs.Machines.{profile_of, reading_of, IsInAgreementOfAll};
ghost use Rattle.gp_cli.specs.Endings.{Drives, Simulates};
ghost use Rattle.gp_cli.specs.Outside.{device, Told};
ghost use Rattle.gp_cli.specs.Causes.{IsReadCause, IsRunCause, IsScriptCause, driven_config};
ghost use Rattle.gp_cli.specs.Serving.{EndsBy};

use crate::status::{DONE, NO_MEMORY, REFUSED, UNREAD, UNWRITTEN};
use crate::subcommand::Operations;
use crate::telling::{READ_FAULT, refusal_text, tell, tell_of};
use gp_command::NoMemory;
use gp_edge::{Refused, Sink, Source, read_up_to};
use gp_msg::Records;
use gp_report::summary;
use gp_round::Config;
use gp_sim::{drive, simulate};
use gp_text::{MOST_BYTES, Played, Unplayed, play, play_bank, report};
use std::alloc::Global;
use std::sync::Wait;

/// The greatest number of bytes that are read: one more than a script may have.
pub const MOST_READ: usize = MOST_BYTES + 1;

/// The status with which a run ended, and its records.
#[derive(Drop)]
pub(crate) struct Outcome {
    pub(crate) status: u8,
    pub(crate) trail: Records,
}

/// A run without records.
pub(crate) fn without_run(alloc: Global, status: u8) -> Outcome
    ensures status { result.status ≡ status }
    ensures trail { result.trail ≡ [] }
{
    Outcome {
        status,
        trail: Records::new(alloc),
    }
}

/// Prints the text of a run, or ends with status 1 if there was no memory to make the run.
pub(crate) fn print<K: Sink>(alloc: Global, made: Result<Played, NoMemory>, sink: &mut K) -> Outcome
    ensures made { IfOk made (λ played. (result.trail ≡ played.world.records)
        × Told (device (K.written sink.old) (K.faults sink.old)) (device (K.written sink.new) (K.faults sink.new)) played.text.items 0 5 result.status) }
    ensures starved { IfErr made (λ _. (result.trail ≡ [])
        × Told (device (K.written sink.old) (K.faults sink.old)) (device (K.written sink.new) (K.faults sink.new)) [] 1 1 result.status) }
    ensures never_falls { K.faults sink.old ≤ K.faults sink.new }
{
    match made {
        Ok(Played { world, text }) => Outcome {
            status: tell(sink, &text, DONE, UNWRITTEN),
            trail: world.into_records(),
        },
        Err(NoMemory) => without_run(alloc, NO_MEMORY),
    }
}

// Plays a script whose operations are for the machine.
fn play_for(alloc: Global, operations: Operations, script: &[u8]) -> Result<Played, Unplayed>
    ensures plays { PlaysFor (profile_of operations) (reading_of operations script.now) result }
    ensures legal { SaysLegallyFor (profile_of operations) (reading_of operations script.now) }
{
    match operations {
        Operations::Store => play(alloc, script),
        Operations::Bank => play_bank(alloc, script),
    }
}

// Plays a script, and prints its output or its first refused line.
fn play_script<K: Sink>(
    alloc: Global,
    operations: Operations,
    script: &[u8],
    sink: &mut K,
) -> Outcome
    ensures ends { EndsBy (IsScriptCause operations (reading_of operations script.now))
        (device (K.written sink.old) (K.faults sink.old)) (device (K.written sink.new) (K.faults sink.new)) result.status result.trail }
    ensures never_falls { K.faults sink.old ≤ K.faults sink.new }
{
    match play_for(alloc, operations, script) {
        Ok(played) => print(alloc, Ok(played), sink),
        Err(
            Unplayed::Bad {
                line,
                reason,
                records,
            },
        ) => Outcome {
            status: tell_of(sink, refusal_text(alloc, line, reason), REFUSED, REFUSED),
            trail: records,
        },
        Err(Unplayed::NoMemory) => without_run(alloc, NO_MEMORY),
    }
}

/// Reads a script whose operations are for the machine, and plays it.
pub(crate) fn read_and_play<S: Source, K: Sink>(
    alloc: Global,
    operations: Operations,
    source: &mut S,
    sink: &mut K,
) -> Outcome
    ensures ends { EndsBy (IsReadCause operations (device (S.rest source.old) (S.faults source.old)) (device (S.rest source.new) (S.faults source.new)))
        (device (K.written sink.old) (K.faults sink.old)) (device (K.written sink.new) (K.faults sink.new)) result.status result.trail }
    ensures source_never_falls { S.faults source.old ≤ S.faults source.new }
    ensures sink_never_falls { K.faults sink.old ≤ K.faults sink.new }
{
    match read_up_to(alloc, source, MOST_READ) {
        Ok(script) => play_script(alloc, operations, &script, sink),
        Err(Refused::Failed) => {
            let status = tell(sink, READ_FAULT, UNREAD, UNREAD);
            without_run(alloc, status)
        }
        Err(Refused::NoMemory) => without_run(alloc, NO_MEMORY),
    }
}

// Three coordinators, and numbers of acceptors and learners that are in range.
fn driven_config(acceptors: u32, learners: u32) -> Config
    requires { bad_count acceptors 3 learners ≡ None }
    ensures { result ≡ driven_config acceptors learners }
{
    match Config::new(acceptors, 3, learners) {
        Ok(config) => config,
        Err(_) => unreachable!(),
    }
}

// The run of commands that are driven, and its report.
fn driven<W: Wait>(rt: &W, alloc: Global, config: Config, commands: u32) -> Result<Played, NoMemory>
    requires three { config.coordinators ≡ 3 }
    requires few { commands ≤ 64 }
    ensures run { IfOk result (λ played. entries_of played.world ≡ driven config commands) }
    ensures text { IfOk result (λ played. played.text.items ≡ report config (driven config commands)) }
    ensures agreement { IfOk result (λ played. IsInAgreementOfAll config (entries_of played.world)) }
{
    let world = drive(rt, alloc, config, commands)?;
    let _legal = world.records();
    let _some = world.config().acceptors();
    let mut text = Vec::new(alloc);
    report(alloc, &world, &mut text)?;
    Ok(Played { world, text })
}

/// Drives commands, and prints the report.
pub(crate) fn drive_and_report<W: Wait, K: Sink>(
    rt: &W,
    alloc: Global,
    acceptors: u32,
    learners: u32,
    commands: u32,
    sink: &mut K,
) -> Outcome
    requires counts { bad_count acceptors 3 learners ≡ None }
    requires few { commands ≤ 64 }
    ensures ends { EndsBy (IsRunCause (Drives (driven_config acceptors learners) commands))
        (device (K.written sink.old) (K.faults sink.old)) (device (K.written sink.new) (K.faults sink.new)) result.status result.trail }
    ensures never_falls { K.faults sink.old ≤ K.faults sink.new }
{
    let made = driven(rt, alloc, driven_config(acceptors, learners), commands);
    print(alloc, made, sink)
}

// The run of the workload of a seed, settled, and its summary.
fn simulated<W: Wait>(rt: &W, alloc: Global, seed: u64, commands: u32) -> Result<Played, NoMemory>
    requires some { 1 ≤ commands }
    requires few { commands ≤ 256 }
    ensures run { IfOk result (λ played. entries_of played.world ≡ simulated seed commands) }
    ensures text { IfOk result (λ played. played.text.items ≡ summary seed commands sim_config (simulated seed commands)) }
    ensures agreement { IfOk result (λ played. IsInAgreementOfAll sim_config (entries_of played.world)) }
{
    let world = simulate(rt, alloc, seed, commands)?;
    let _legal = world.records();
    let mut text = Vec::new(alloc);
    summary(alloc, seed, commands, &world, &mut text)?;
    Ok(Played { world, text })
}

/// Makes the workload of a seed, plays and settles it, and prints a summary.
pub(crate) fn simulate_and_summarize<W: Wait, K: Sink>(
    rt: &W,
    alloc: Global,
    seed: u64,
    commands: u32,
    sink: &mut K,
) -> Outcome
    requires some { 1 ≤ commands }
    requires few { commands ≤ 256 }
    ensures ends { EndsBy (IsRunCause (Simulates seed commands))
        (device (K.written sink.old) (K.faults sink.old)) (device (K.written sink.new) (K.faults sink.new)) result.status result.trail }
    ensures never_falls { K.faults sink.old ≤ K.faults sink.new }
{
    let made = simulated(rt, alloc, seed, commands);
    print(alloc, made, sink)
}
