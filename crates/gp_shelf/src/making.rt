//! New logs on disks.
ghost use Rattle.std.specs.Prelude.{◌≡◌, ◌<◌, ◌≤◌, [], length, vec_len, vec_capacity, OnOk, IfOk, IfErr};
ghost use Rattle.std.specs.List.{AllZip};
ghost use Rattle.gp_vlog.specs.Causes.{IsNoPlace};
ghost use Rattle.gp_shelf.specs.Lists.{HasRoomFor};
ghost use Rattle.gp_shelf.specs.Making.{IsMade, MakesFirst, StaysFirst, ComesBack, lend_fault_of};

use crate::moving::{put_first, unmake};
use gp_edge::Disk;
use gp_vlog::{LEAST_LIMIT, Log, MOST_LIMIT, OpenFault, Unopened};
use std::alloc::Global;

/// Why disks were not lent.
#[derive(Clone, Copy, Debug, PartialEq, Eq)]
pub enum LendFault {
    /// A disk failed.
    Disk,
    /// Memory ran out.
    NoMemory,
}

// Makes a new log on the first disk, and appends it to the logs. If that is refused, the disk is
// the first again.
fn make_first<D: Disk>(
    alloc: Global,
    limit: u32,
    disks: &mut Vec<D>,
    logs: &mut Vec<Log<D>>,
) -> Result<(), LendFault>
    requires low { LEAST_LIMIT ≤ limit }
    requires high { limit ≤ MOST_LIMIT }
    requires some { 0 < length disks.old.items }
    requires room { vec_len logs.old < vec_capacity logs.old }
    ensures made { OnOk result (MakesFirst (IsMade D.content D.image D.faults limit) disks.old.items disks.new.items logs.old.items logs.new.items) }
    ensures back { IfErr result (StaysFirst D.faults disks.old.items disks.new.items) }
    ensures unchanged { IfErr result (λ _. logs.new.items ≡ logs.old.items) }
    ensures capacity { vec_capacity disks.new ≡ vec_capacity disks.old }
    ensures logs_capacity { vec_capacity logs.new ≡ vec_capacity logs.old }
{
    match Log::create(alloc, disks.remove(0), limit) {
        Ok(log) => {
            logs.push_reserved(log);
            Ok(())
        }
        Err(Unopened { why, disk }) => {
            put_first(disks, disk);
            Err(fault_of(why))
        }
    }
}

// Why a log was not made. A new log is never refused for the bytes of its disk.
fn fault_of(why: OpenFault) -> LendFault
    requires { IsNoPlace why }
    ensures { result ≡ lend_fault_of why }
{
    match why {
        OpenFault::NotLog { .. } => unreachable!(),
        OpenFault::Disk => LendFault::Disk,
        OpenFault::NoMemory => LendFault::NoMemory,
    }
}

/// Makes a new log on each of the disks, in their order. If it is refused, the disks come back in
/// order.
pub(crate) fn make<D: Disk>(
    alloc: Global,
    limit: u32,
    disks: &mut Vec<D>,
    logs: Vec<Log<D>>,
) -> Result<Vec<Log<D>>, LendFault>
    requires low { LEAST_LIMIT ≤ limit }
    requires high { limit ≤ MOST_LIMIT }
    requires room { HasRoomFor (length disks.old.items) logs }
    ensures made { IfOk result (λ logs. AllZip (IsMade D.content D.image D.faults limit) disks.old.items logs.items) }
    ensures none_left { OnOk result (disks.new.items ≡ []) }
    ensures back { IfErr result (ComesBack D.faults disks.old.items disks.new.items) }
    ensures capacity { vec_capacity disks.new ≡ vec_capacity disks.old }
{
    let mut logs = logs;
    for _ in 0..disks.len() {
        if let Err(why) = make_first(alloc, limit, disks, &mut logs) {
            unmake(logs, disks);
            return Err(why);
        }
    }
    Ok(logs)
}
