//! The program, from its arguments to its exit status.
ghost use Rattle.std.specs.Prelude.{◌≡◌, ◌≤◌, [], true, IfOk, OnErr, is_ok, length};
ghost use Rattle.std.specs.Process.{exit_status};
ghost use Rattle.gp_cli.specs.Subcommands.{texts_of};
ghost use Rattle.gp_cli.specs.declared.ran.Trail.TheVariants.{Folded};
ghost use Rattle.gp_cli.specs.Outside.{outside};
ghost use Rattle.gp_cli.specs.Causes.{IsReader, RunsNodes};
ghost use Rattle.gp_cli.specs.Logs.{KeepsLast};
ghost use Rattle.gp_cli.specs.Serving.{Ends, IsInAgreementFor, EachDisk, KeepsUnused};
ghost use Rattle.gp_cli.specs.Trails.{records_in, IsMadeFor};
ghost use Rattle.gp_cli.specs.Program.{IsNoText, AreWords, subcommand_in, given_disks, IsProgramCause};

use crate::ran::{Ran, Trail};
use crate::serving::serve;
use crate::status::NO_MEMORY;
use gp_command::NoMemory;
use gp_edge::{Disk, Gate, Sink, Source};
use gp_msg::Records;
use std::alloc::Global;
use std::env::Args;
use std::io::{self, ErrorKind};
use std::marker::Model;
use std::process::{ExitCode, Termination};
use std::sync::Wait;
use std::thread::Threads;

/// How the program ended. Only `run_program` makes one, so a `main` that returns one ends with the
/// status of that run. It is not `Drop`, so a `main` cannot let it go and end with another status. A
/// contract sees the run.
pub struct Ended<D: Disk> {
    ran: Ran<D>,
}

impl<D: Disk> Model for Ended<D> {
    ghost use Rattle.gp_cli.specs.declared.ran.Ran.{Ran};

    ghost Value = { Ran D };

    ghost view = { λ e. e.ran };
}

impl<D: Disk> Termination for Ended<D> {
    /// The exit status of the run.
    fn report<R: Eprint>(self, _rt: &R) -> ExitCode
        ensures { exit_status result ≡ self.status }
    {
        let Ended { ran } = self;
        ExitCode::from(ran.status)
    }
}

// The words after the program's name. If an argument is not text, there are none, so they name no
// subcommand.
fn words_after_name(alloc: Global, arguments: io::Result<Args>) -> Result<Vec<String>, NoMemory>
    ensures words { IfOk result (λ words. AreWords arguments (texts_of words.items)) }
    ensures refused { OnErr result (¬ IsNoText arguments) }
{
    match arguments {
        Ok(given) => Ok(given.skip(1).collect(alloc)?),
        Err(error) if error.kind() == ErrorKind::InvalidData => Ok(Vec::new(alloc)),
        Err(_) => Err(NoMemory),
    }
}

// The end of a run without memory: no records, and the disks as they were.
fn starved<D: Disk>(alloc: Global, disks: Vec<D>) -> Ran<D>
    ensures status { result.status ≡ 1 }
    ensures trail { result.trail ≡ Folded [] }
    ensures disks { result.disks.items ≡ disks.items }
{
    Ran {
        status: NO_MEMORY,
        trail: Trail::Folded(Records::new(alloc)),
        disks,
    }
}

// Runs the subcommand that the arguments name, over these disks.
fn run_arguments<W: Threads + Wait + Sync, S: Source, K: Sink, D: Disk + Send, G: Gate + Sync>(
    rt: &W,
    alloc: Global,
    arguments: io::Result<Args>,
    source: &mut S,
    sink: &mut K,
    disks: Vec<D>,
    gate: &G,
) -> Ran<D>
    requires twelve { length disks.items ≡ 12 }
    ensures agreement { IsInAgreementFor (IsProgramCause arguments true) (outside S.rest S.faults K.written K.faults D.content D.faults source.old sink.old disks.items)
        (outside S.rest S.faults K.written K.faults D.content D.faults source.new sink.new result.disks.items) (records_in result.trail) }
    ensures ends { Ends (IsProgramCause arguments true) (outside S.rest S.faults K.written K.faults D.content D.faults source.old sink.old disks.items)
        (outside S.rest S.faults K.written K.faults D.content D.faults source.new sink.new result.disks.items) result.status (records_in result.trail) }
    ensures posted { IsMadeFor (subcommand_in arguments) result.status result.trail }
    ensures crash { ¬ RunsNodes (subcommand_in arguments) → EachDisk (KeepsLast D.content D.image D.moment D.since) disks.items result.disks.items }
    ensures untouched { ¬ IsReader (subcommand_in arguments) → source.new ≡ source.old }
    ensures others { KeepsUnused (subcommand_in arguments) (IsProgramCause arguments true (outside S.rest S.faults K.written K.faults D.content D.faults source.old sink.old disks.items)
        (outside S.rest S.faults K.written K.faults D.content D.faults source.new sink.new result.disks.items)) disks.items result.disks.items }
    ensures source_never_falls { S.faults source.old ≤ S.faults source.new }
    ensures sink_never_falls { K.faults sink.old ≤ K.faults sink.new }
    ensures disks_never_fall { EachDisk (λ was is. D.faults was ≤ D.faults is) disks.items result.disks.items }
{
    match words_after_name(alloc, arguments) {
        Ok(words) => serve(rt, alloc, &words, source, sink, disks, gate),
        Err(NoMemory) => starved(alloc, disks),
    }
}

/// Runs the program: the subcommand that its arguments name, over its input, its output and its
/// disks.
///
/// The arguments are what `std::env::args` gives: the program's name, followed by the words that
/// `serve` gets. If an argument is not text, there is no subcommand: the usage is printed, and the
/// status is 2, unless memory runs out. After any other error of `std::env::args`, nothing is
/// printed, and the status is 1. After either error nothing is read. If memory ran out for the
/// disks, nothing is printed, and the status is 1, whatever the arguments are. If memory runs out
/// for the words, the run ends as if it had run out in the subcommand. `laws` says what each exit
/// status means.
pub fn run_program<W: Threads + Wait + Sync, S: Source, K: Sink, D: Disk + Send, G: Gate + Sync>(
    rt: &W,
    alloc: Global,
    arguments: io::Result<Args>,
    source: &mut S,
    sink: &mut K,
    disks: Result<Vec<D>, NoMemory>,
    gate: &G,
) -> Ended<D>
    requires twelve { IfOk disks (λ d. length d.items ≡ 12) }

    // For every status the records are a legal run of the configuration of the script or the
    // subcommand, what learners showed at any moments agrees, and so do replicas.
    ensures agreement { IsInAgreementFor (IsProgramCause arguments (is_ok disks)) (outside S.rest S.faults K.written K.faults D.content D.faults source.old sink.old (given_disks disks))
        (outside S.rest S.faults K.written K.faults D.content D.faults source.new sink.new result.disks.items) (records_in result.trail) }

    // The records, the text and the status are those of one ending, which has its cause.
    ensures ends { Ends (IsProgramCause arguments (is_ok disks)) (outside S.rest S.faults K.written K.faults D.content D.faults source.old sink.old (given_disks disks))
        (outside S.rest S.faults K.written K.faults D.content D.faults source.new sink.new result.disks.items) result.status (records_in result.trail) }

    // The records of `run`, `adapt` and `views` are those that nodes in threads posted. There are
    // none if the run ended before their list was closed.
    ensures posted { IsMadeFor (subcommand_in arguments) result.status result.trail }

    // Except in `run`, `adapt` and `views`, a crash at any moment leaves of each disk what it might
    // have left before the call, or a log with all its entries or with the last one.
    ensures crash { ¬ RunsNodes (subcommand_in arguments) → EachDisk (KeepsLast D.content D.image D.moment D.since) (given_disks disks) result.disks.items }

    ensures untouched { ¬ IsReader (subcommand_in arguments) → source.new ≡ source.old }
    ensures others { KeepsUnused (subcommand_in arguments) (IsProgramCause arguments (is_ok disks) (outside S.rest S.faults K.written K.faults D.content D.faults source.old sink.old (given_disks disks))
        (outside S.rest S.faults K.written K.faults D.content D.faults source.new sink.new result.disks.items)) (given_disks disks) result.disks.items }
    ensures source_never_falls { S.faults source.old ≤ S.faults source.new }
    ensures sink_never_falls { K.faults sink.old ≤ K.faults sink.new }
    ensures disks_never_fall { EachDisk (λ was is. D.faults was ≤ D.faults is) (given_disks disks) result.disks.items }
{
    match disks {
        Ok(disks) => Ended {
            ran: run_arguments(rt, alloc, arguments, source, sink, disks, gate),
        },
        Err(NoMemory) => Ended {
            ran: starved(alloc, Vec::new(alloc)),
        },
    }
}
