//! The subcommands that show and renew the log of a disk.
ghost use Rattle.std.specs.Prelude.{◌≡◌, ◌≤◌, ◌<◌, map, length, true, IfOk, IfErr};
ghost use Rattle.std.specs.List.{All};
ghost use Rattle.gp_edge.specs.Disks.{IfRevealed, LeavesOnly};
ghost use Rattle.gp_msg.specs.Messages.{part_of};
ghost use Rattle.gp_text.specs.Logs.{log_text};
ghost use Rattle.gp_vlog.specs.Causes.{HasCause};
ghost use Rattle.gp_vlog.specs.Logs.{IsReady, KeepsRules};
ghost use Rattle.gp_cli.specs.Outside.{device, Told};
ghost use Rattle.gp_cli.specs.Causes.{IsLogCause, IsUpgradeCause, log_cause};
ghost use Rattle.gp_cli.specs.Logs.{LogEnds, KeepsLast, TakesOn, open_ending, append_ending, TellsEnding};

use crate::status::{DISK_FAILED, DONE, LOG_FULL, NO_LOG, NO_MEMORY, UNWRITTEN};
use crate::telling::{DISK_FAULT, broken_text, full_text, tell, tell_of};
use gp_command::NoMemory;
use gp_edge::{Disk, Sink};
use gp_text::log_text;
use gp_vlog::{AppendFault, Log, OpenFault, Unopened};
use std::alloc::Global;

// Prints why a log was not opened.
fn tell_unopened<K: Sink>(alloc: Global, why: OpenFault, sink: &mut K) -> u8
    ensures told { TellsEnding (open_ending why) (device (K.written sink.old) (K.faults sink.old)) (device (K.written sink.new) (K.faults sink.new)) result }
    ensures never_falls { K.faults sink.old ≤ K.faults sink.new }
{
    match why {
        OpenFault::NotLog { at } => tell_of(sink, broken_text(alloc, at), NO_LOG, NO_LOG),
        OpenFault::Disk => tell(sink, DISK_FAULT, DISK_FAILED, DISK_FAILED),
        OpenFault::NoMemory => NO_MEMORY,
    }
}

// Prints why a log was not renewed.
fn tell_unrenewed<K: Sink>(alloc: Global, why: AppendFault, sink: &mut K) -> u8
    ensures told { TellsEnding (append_ending why) (device (K.written sink.old) (K.faults sink.old)) (device (K.written sink.new) (K.faults sink.new)) result }
    ensures never_falls { K.faults sink.old ≤ K.faults sink.new }
{
    match why {
        AppendFault::Full { size, need } => {
            tell_of(sink, full_text(alloc, size, need), LOG_FULL, LOG_FULL)
        }
        AppendFault::Disk => tell(sink, DISK_FAULT, DISK_FAILED, DISK_FAILED),
        AppendFault::NoMemory => NO_MEMORY,
    }
}

fn shown_text<D: Disk>(alloc: Global, number: u32, log: &Log<D>) -> Result<Vec<u8>, NoMemory>
    ensures { IfOk result (λ text. text.items ≡ log_text number (map part_of log.now.entries) log.now.size) }
{
    let mut text = Vec::new(alloc);
    log_text(alloc, number, log, &mut text)?;
    Ok(text)
}

// Prints the entries of a log.
fn print_log<D: Disk, K: Sink>(alloc: Global, number: u32, log: &Log<D>, sink: &mut K) -> u8
    ensures told { Told (device (K.written sink.old) (K.faults sink.old)) (device (K.written sink.new) (K.faults sink.new))
        (log_text number (map part_of log.now.entries) log.now.size) 0 5 result }
    ensures never_falls { K.faults sink.old ≤ K.faults sink.new }
{
    match shown_text(alloc, number, log) {
        Ok(text) => tell(sink, &text, DONE, UNWRITTEN),
        Err(NoMemory) => NO_MEMORY,
    }
}

// Renews a log that has an entry of version 1: it keeps the last entry alone. Any other log stays
// as it is.
fn take_on<D: Disk>(log: &mut Log<D>) -> Result<(), AppendFault>
    requires ready { log.old.ready ≡ true }
    requires on_disk { IsReady D.content D.image log.old }
    requires rules { All KeepsRules log.old.entries }
    ensures taken { TakesOn D.content D.image log.old log.new result }
    ensures any_moment { KeepsLast D.content D.image D.moment D.since log.old.disk log.new.disk }
    ensures cause { HasCause (D.faults log.old.disk) (D.faults log.new.disk) result }
{
    if !log.is_old() {
        return Ok(());
    }
    let last = log.entry(log.count() - 1).copy()?;
    log.renew(&last)
}

// Shows the log of a disk: how many entries it has, its size, and each entry.
fn show_log<D: Disk, K: Sink>(alloc: Global, number: u32, disk: D, sink: &mut K) -> (u8, D)
    ensures ends { LogEnds (IsLogCause number (device (D.content disk) (D.faults disk)) (device (D.content result.1) (D.faults result.1)))
        (device (K.written sink.old) (K.faults sink.old)) (device (K.written sink.new) (K.faults sink.new)) result.0 }
    ensures crash { KeepsLast D.content D.image D.moment D.since disk result.1 }
    ensures disk_never_falls { D.faults disk ≤ D.faults result.1 }
    ensures never_falls { K.faults sink.old ≤ K.faults sink.new }
{
    match Log::open(alloc, disk) {
        Ok(log) => {
            let status = print_log(alloc, number, &log, sink);
            (status, log.into_disk())
        }
        Err(Unopened { why, disk }) => (tell_unopened(alloc, why, sink), disk),
    }
}

// Renews a log if it has an entry of version 1, and prints its entries.
fn take_on_and_print<D: Disk, K: Sink>(
    alloc: Global,
    number: u32,
    log: &mut Log<D>,
    sink: &mut K,
) -> u8
    requires ready { log.old.ready ≡ true }
    requires on_disk { IsReady D.content D.image log.old }
    requires rules { All KeepsRules log.old.entries }
    ensures ends { LogEnds (IsUpgradeCause number (device (D.content log.old.disk) (D.faults log.old.disk)) (device (D.content log.new.disk) (D.faults log.new.disk)))
        (device (K.written sink.old) (K.faults sink.old)) (device (K.written sink.new) (K.faults sink.new)) result }
    ensures any_moment { KeepsLast D.content D.image D.moment D.since log.old.disk log.new.disk }
    ensures disk_never_falls { D.faults log.old.disk ≤ D.faults log.new.disk }
    ensures never_falls { K.faults sink.old ≤ K.faults sink.new }
{
    match take_on(log) {
        Ok(()) => print_log(alloc, number, log, sink),
        Err(why) => tell_unrenewed(alloc, why, sink),
    }
}

// Shows the log of a disk. If it was written in version 1 of the format, it is renewed with its
// last entry first.
fn upgrade_log<D: Disk, K: Sink>(alloc: Global, number: u32, disk: D, sink: &mut K) -> (u8, D)
    ensures ends { LogEnds (IsUpgradeCause number (device (D.content disk) (D.faults disk)) (device (D.content result.1) (D.faults result.1)))
        (device (K.written sink.old) (K.faults sink.old)) (device (K.written sink.new) (K.faults sink.new)) result.0 }
    ensures crash { KeepsLast D.content D.image D.moment D.since disk result.1 }
    ensures disk_never_falls { D.faults disk ≤ D.faults result.1 }
    ensures never_falls { K.faults sink.old ≤ K.faults sink.new }
{
    match Log::open(alloc, disk) {
        Ok(log) => {
            let mut log = log;
            let status = take_on_and_print(alloc, number, &mut log, sink);
            (status, log.into_disk())
        }
        Err(Unopened { why, disk }) => (tell_unopened(alloc, why, sink), disk),
    }
}

/// Shows the log of a disk. If `upgrades`, a log with an entry of version 1 is renewed first.
pub(crate) fn use_disk<D: Disk, K: Sink>(
    alloc: Global,
    number: u32,
    upgrades: bool,
    disk: D,
    sink: &mut K,
) -> (u8, D)
    ensures ends { LogEnds (log_cause upgrades number (device (D.content disk) (D.faults disk)) (device (D.content result.1) (D.faults result.1)))
        (device (K.written sink.old) (K.faults sink.old)) (device (K.written sink.new) (K.faults sink.new)) result.0 }
    ensures crash { KeepsLast D.content D.image D.moment D.since disk result.1 }
    ensures disk_never_falls { D.faults disk ≤ D.faults result.1 }
    ensures never_falls { K.faults sink.old ≤ K.faults sink.new }
{
    if upgrades {
        upgrade_log(alloc, number, disk, sink)
    } else {
        show_log(alloc, number, disk, sink)
    }
}
