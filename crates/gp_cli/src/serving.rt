//! The subcommands of the program, over any source, sink and disks.
ghost use Rattle.std.specs.Prelude.{◌≡◌, ◌≤◌, ◌<◌, Some, length, vec_len, vec_capacity};
ghost use Rattle.std.specs.List.{insert};
ghost use Rattle.gp_cli.specs.Subcommands.{texts_of, named};
ghost use Rattle.gp_cli.specs.Outside.{device, disk_states, outside, AllBut};
ghost use Rattle.gp_cli.specs.declared.ran.Trail.TheVariants.{Folded};
ghost use Rattle.gp_cli.specs.Causes.{IsCause, IsMisuse, IsReader, RunsNodes, log_cause, device_at};
ghost use Rattle.gp_cli.specs.Logs.{KeepsLast};
ghost use Rattle.gp_cli.specs.Serving.{EndsBy, Ends, IsInAgreementFor, EachDisk, KeepsUnused};
ghost use Rattle.gp_cli.specs.Trails.{records_in, IsFolded, IsMadeFor};

use crate::auditing::read_and_audit;
use crate::logs::use_disk;
use crate::nodes::read_and_run;
use crate::ran::{Ran, Trail};
use crate::runs::{Outcome, drive_and_report, read_and_play, simulate_and_summarize};
use crate::status::MISUSED;
use crate::subcommand::{Subcommand, subcommand_of};
use crate::telling::{USAGE, tell};
use gp_edge::{Disk, Gate, Sink, Source};
use gp_msg::Records;
use std::alloc::Global;
use std::sync::Wait;
use std::thread::Threads;

// Prints the usage.
fn misuse<K: Sink>(alloc: Global, sink: &mut K) -> Outcome
    ensures ends { EndsBy IsMisuse (device (K.written sink.old) (K.faults sink.old)) (device (K.written sink.new) (K.faults sink.new))
        result.status result.trail }
    ensures never_falls { K.faults sink.old ≤ K.faults sink.new }
{
    Outcome {
        status: tell(sink, USAGE, MISUSED, MISUSED),
        trail: Records::new(alloc),
    }
}

// Puts a disk back into the place from which it was taken.
fn put_back<D: Disk>(disks: &mut Vec<D>, index: usize, disk: D)
    requires within { index ≤ vec_len disks.old }
    requires room { vec_len disks.old < vec_capacity disks.old }
    ensures { disks.new.items ≡ insert disks.old.items index disk }
{
    match disks.insert(index, disk) {
        Ok(()) => {}
        Err(_) => unreachable!(),
    }
}

// The end of a run that used no disk, with the disks.
fn with_disks<D: Disk>(outcome: Outcome, disks: Vec<D>) -> Ran<D>
    ensures status { result.status ≡ outcome.status }
    ensures trail { result.trail ≡ Folded outcome.trail }
    ensures disks { result.disks.items ≡ disks.items }
{
    Ran {
        status: outcome.status,
        trail: Trail::Folded(outcome.trail),
        disks,
    }
}

// Shows the log of one of the disks. If `upgrades`, a log with an entry of version 1 is renewed
// first.
fn use_log<D: Disk, K: Sink>(
    alloc: Global,
    number: u32,
    upgrades: bool,
    disks: Vec<D>,
    sink: &mut K,
) -> Ran<D>
    requires within { number < length disks.items }
    ensures ends { EndsBy (log_cause upgrades number (device_at number (disk_states D.content D.faults disks.items)) (device_at number (disk_states D.content D.faults result.disks.items)))
        (device (K.written sink.old) (K.faults sink.old)) (device (K.written sink.new) (K.faults sink.new)) result.status (records_in result.trail) }
    ensures folded { IsFolded result.trail }
    ensures others { AllBut (Some number) disks.items result.disks.items }
    ensures crash { EachDisk (KeepsLast D.content D.image D.moment D.since) disks.items result.disks.items }
    ensures disks_never_fall { EachDisk (λ was is. D.faults was ≤ D.faults is) disks.items result.disks.items }
    ensures never_falls { K.faults sink.old ≤ K.faults sink.new }
{
    let mut disks = disks;
    let index = number as usize;
    let disk = disks.remove(index);
    let (status, disk) = use_disk(alloc, number, upgrades, disk, sink);
    put_back(&mut disks, index, disk);
    Ran {
        status,
        trail: Trail::Folded(Records::new(alloc)),
        disks,
    }
}

/// Runs the subcommand that the words name. It reads its input from the source, writes its text to
/// the sink, and uses the twelve disks.
///
/// `play` reads a script to its end, or to one byte past the most that a script may have, plays it,
/// and prints what its `show` lines ask for and the report. If a read fails, the script is not
/// played. If a line is refused, only the refusal is printed. `bank` does the same with a script
/// whose operations are on accounts, and its report has the totals of each learner's accounts.
///
/// `run` reads a script of offers, makes new logs on the disks of the nodes of its configuration,
/// and runs the nodes in threads until every learner holds every offered command. It prints the
/// trace of what they posted, a line `--` and the report, or why they ended early. `adapt` does so
/// in rounds that adapt. `views` does so while two readers look at a key, and prints what they saw
/// after the report. The steps of the nodes pass the gate; no contract says what it does.
///
/// `sim` makes the workload of a seed, settles it, and prints a summary. `drive` drives commands,
/// one after another, in a multi round in which one coordinator takes no part, and prints the
/// report. `log` prints the entries of the log of a disk, and changes no byte of it. `upgrade`
/// first renews a log with entries of version 1 of the format, and then prints its entries.
///
/// `audit` reads what `run` or `adapt` printed, to its end or to one byte past the most that it may
/// have, and prints the word `legal` and a certificate for each learned command, or the first line
/// that breaks a rule. If the words name no subcommand, the usage is printed. `laws` says what each
/// exit status means.
pub fn serve<W: Threads + Wait + Sync, S: Source, K: Sink, D: Disk + Send, G: Gate + Sync>(
    rt: &W,
    alloc: Global,
    words: &[String],
    source: &mut S,
    sink: &mut K,
    disks: Vec<D>,
    gate: &G,
) -> Ran<D>
    requires twelve { length disks.items ≡ 12 }

    // For every status the records are a legal run of the configuration of the script or the
    // subcommand, what learners showed at any moments agrees, and so do replicas.
    ensures agreement { IsInAgreementFor (IsCause (texts_of words.now)) (outside S.rest S.faults K.written K.faults D.content D.faults source.old sink.old disks.items)
        (outside S.rest S.faults K.written K.faults D.content D.faults source.new sink.new result.disks.items) (records_in result.trail) }

    // The records, the text and the status are those of one ending, which has its cause.
    ensures ends { Ends (IsCause (texts_of words.now)) (outside S.rest S.faults K.written K.faults D.content D.faults source.old sink.old disks.items)
        (outside S.rest S.faults K.written K.faults D.content D.faults source.new sink.new result.disks.items) result.status (records_in result.trail) }

    // The records of `run`, `adapt` and `views` are those that nodes in threads posted. There are
    // none if the run ended before their list was closed.
    ensures posted { IsMadeFor (named (texts_of words.now)) result.status result.trail }

    // Except in these three, a crash at any moment leaves of each disk what it might have left
    // before the call, or a log with all its entries or with the last one.
    ensures crash { ¬ RunsNodes (named (texts_of words.now)) → EachDisk (KeepsLast D.content D.image D.moment D.since) disks.items result.disks.items }

    ensures untouched { ¬ IsReader (named (texts_of words.now)) → source.new ≡ source.old }

    // The disks that the subcommand does not use are as before: all except that of `log` or
    // `upgrade`, and all except those of the nodes of the script's configuration in `run`, `adapt`
    // and `views`.
    ensures others { KeepsUnused (named (texts_of words.now)) (IsCause (texts_of words.now) (outside S.rest S.faults K.written K.faults D.content D.faults source.old sink.old disks.items)
        (outside S.rest S.faults K.written K.faults D.content D.faults source.new sink.new result.disks.items)) disks.items result.disks.items }

    ensures source_never_falls { S.faults source.old ≤ S.faults source.new }
    ensures sink_never_falls { K.faults sink.old ≤ K.faults sink.new }
    ensures disks_never_fall { EachDisk (λ was is. D.faults was ≤ D.faults is) disks.items result.disks.items }
{
    match subcommand_of(words) {
        Some(Subcommand::Play { operations }) => {
            with_disks(read_and_play(alloc, operations, source, sink), disks)
        }
        Some(
            Subcommand::Run {
                policy,
                limit,
                viewed,
            },
        ) => read_and_run(rt, alloc, policy, limit, viewed, source, sink, disks, gate),
        Some(Subcommand::Sim { seed, commands }) => {
            with_disks(
                simulate_and_summarize(rt, alloc, seed, commands, sink),
                disks,
            )
        }
        Some(
            Subcommand::Drive {
                acceptors,
                learners,
                commands,
            },
        ) => with_disks(
            drive_and_report(rt, alloc, acceptors, learners, commands, sink),
            disks,
        ),
        Some(Subcommand::Log { disk }) => use_log(alloc, disk, false, disks, sink),
        Some(Subcommand::Upgrade { disk }) => use_log(alloc, disk, true, disks, sink),
        Some(Subcommand::Audit) => with_disks(read_and_audit(alloc, source, sink), disks),
        None => with_disks(misuse(alloc, sink), disks),
    }
}
