//! The log of one node: it is created, opened, appended to and renewed.
ghost use Rattle.std.specs.Prelude.{All, ◌≡◌, ◌+◌, ◌≤◌, ◌<◌, ◌++◌, ◌∷◌, [], true, false, None, Some, OnOk, OnErr, IfOk, IfErr, length, slice_get, nat_eq};
ghost use Rattle.std.specs.Option.{option_map};
ghost use Rattle.gp_edge.specs.Disks.{IfRevealed, RevealsAlike, LeavesOnly};
ghost use Rattle.gp_msg.specs.Messages.{part_of};
ghost use Rattle.gp_vlog.specs.Bodies.{need};
ghost use Rattle.gp_vlog.specs.Causes.{IsFullWhere, HasCause, HasOpenCause, IsNoPlace};
ghost use Rattle.gp_vlog.specs.Files.{is_second, is_limit};
ghost use Rattle.gp_vlog.specs.Opened.{disk_of, outcome_of};
ghost use Rattle.gp_vlog.specs.Plans.{HoldsAppended, size_with};
ghost use Rattle.gp_vlog.specs.Reading.{BreaksAt};
ghost use Rattle.gp_vlog.specs.Logs.{IsReady, KeepsRules, OldOrAdded, OldOrRenewed, StaysUnready, StaysWhole, entry_for, has_old, log_entries, last};

use crate::device::{begin, load, write_and_mark};
use crate::fault::{AppendFault, OpenFault};
use crate::file::{Found, first_gate};
use crate::header::{LEAST_LIMIT, MOST_LIMIT};
use crate::plan::{is_full, planned};
use gp_edge::Disk;
use gp_msg::Durable;
use std::alloc::Global;
use std::marker::Model;

/// The durable parts of one node, in order, on a disk.
///
/// A log is ready after it was created or opened, and after each append and renewal that returned
/// `Ok` or `Full`. It then knows what its disk holds: a crash leaves the entries that it shows.
/// After `Disk` and `NoMemory` it is not ready, and `reopen` reads it again.
///
/// Contracts speak of what the disk holds if the disk reveals its content. The file format is in
/// docs/FORMATS.md. All entries are in memory, and opening reads the whole file into memory.
#[derive(Drop)]
pub struct Log<D: Disk> {
    alloc: Global,
    disk: D,
    limit: u32,
    // whether the second area is the active one
    second: bool,
    entries: Vec<Durable>,
    // whether the entries were written in version 1 of the format
    first_version: bool,
    // the place of the closed gate, from the first gate of the active area on
    closed: u64,
    ready: bool,
}

impl<D: Disk> Model for Log<D> {
    ghost use Rattle.std.specs.Prelude.{◌+◌};
    ghost use Rattle.gp_vlog.specs.Logs.{LogState, IsOnDisk, log_entries};

    ghost Value = { LogState D };

    ghost view = { λ l. record { disk = l.disk; limit = l.limit; entries = l.entries.items; is_old = l.first_version; size = 17 + l.closed; ready = l.ready } };

    ghost invariant = { λ l. IsOnDisk D.content D.image l.disk l.limit l.second l.first_version (log_entries l.first_version l.entries.items) l.closed l.ready };
}

/// Why a log was not created or opened, with the disk.
#[derive(Drop)]
pub struct Unopened<D: Disk> {
    pub why: OpenFault,
    pub disk: D,
}

impl<D: Disk> Log<D> {
    /// Makes a log without entries, whose size is at most `limit` bytes. `limit` must be from
    /// `LEAST_LIMIT` to `MOST_LIMIT`. What the disk held is lost.
    ///
    /// It cuts the disk to length 0, writes the header with one closed gate, and syncs. It returns
    /// `Disk` only if the number of faults of the disk has increased or is 2^64 - 1, and `NoMemory`
    /// if memory runs out. It never returns `NotLog`. No clause says what a crash inside this call
    /// leaves.
    pub fn create(alloc: Global, disk: D, limit: u32) -> Result<Log<D>, Unopened<D>>
        requires low { LEAST_LIMIT ≤ limit }
        requires high { limit ≤ MOST_LIMIT }
        ensures created { IfOk result (λ log. log.entries ≡ []) }
        ensures limit { IfOk result (λ log. log.limit ≡ limit) }
        ensures size { IfOk result (λ log. log.size ≡ 17) }
        ensures new { IfOk result (λ log. log.is_old ≡ false) }
        ensures ready { IfOk result (λ log. (log.ready ≡ true) × IsReady D.content D.image log) }
        ensures why { IfErr result (λ e. IsNoPlace e.why) }
        ensures cause { HasOpenCause (D.faults disk) (D.faults (disk_of result)) (outcome_of result) }
    {
        let mut disk = disk;
        match begin(alloc, &mut disk, limit) {
            Ok(()) => Ok(Log {
                alloc,
                disk,
                limit,
                second: false,
                entries: Vec::new(alloc),
                first_version: false,
                closed: 0,
                ready: true,
            }),
            Err(why) => Err(Unopened { why, disk }),
        }
    }

    /// Opens the log that a disk holds, with all its entries.
    ///
    /// It syncs and reads, and changes no byte. It returns `NotLog` only if the bytes break the
    /// format, with the smallest place where they do; `Disk` only if the number of faults of the
    /// disk has increased or is 2^64 - 1; and `NoMemory` if memory runs out. It never returns
    /// `NotLog` for a disk on which a log was created, even after a crash inside an append or a
    /// renewal (`laws`).
    pub fn open(alloc: Global, disk: D) -> Result<Log<D>, Unopened<D>>
        ensures ready { IfOk result (λ log. (log.ready ≡ true) × IsReady D.content D.image log) }
        ensures rules { IfOk result (λ log. All KeepsRules log.entries) }
        ensures broken { IfErr result (λ e. BreaksAt is_limit (D.content disk) e.why) }
        ensures content { D.content (disk_of result) ≡ D.content disk }
        ensures any_moment { LeavesOnly D.moment D.since disk (disk_of result) (D.image disk) }
        ensures cause { HasOpenCause (D.faults disk) (D.faults (disk_of result)) (outcome_of result) }
    {
        let mut disk = disk;
        match load(alloc, &mut disk, None) {
            Ok(found) => Ok(Log {
                alloc,
                disk,
                limit: found.limit,
                second: found.second,
                entries: found.entries,
                first_version: found.first_version,
                closed: found.closed,
                ready: true,
            }),
            Err(why) => Err(Unopened { why, disk }),
        }
    }

    /// Reads the log again from its disk, as `open` does, and makes it ready.
    ///
    /// A limit other than that of this log counts as out of range, so the limit of a log never
    /// changes. The errors are those of `open`. After each of them the log shows what it showed,
    /// and is not ready.
    pub fn reopen(&mut self) -> Result<(), OpenFault>
        ensures ready { OnOk result ((self.new.ready ≡ true) × IsReady D.content D.image self.new) }
        ensures rules { OnOk result (All KeepsRules self.new.entries) }
        ensures refused { OnErr result (StaysUnready self.old self.new) }
        ensures broken { IfErr result (BreaksAt (nat_eq self.old.limit) (D.content self.old.disk)) }
        ensures limit { self.new.limit ≡ self.old.limit }
        ensures content { D.content self.new.disk ≡ D.content self.old.disk }
        ensures any_moment { LeavesOnly D.moment D.since self.old.disk self.new.disk (D.image self.old.disk) }
        ensures cause { HasOpenCause (D.faults self.old.disk) (D.faults self.new.disk) result }
    {
        self.ready = false;
        let found = load(self.alloc, &mut self.disk, Some(self.limit))?;
        self.second = found.second;
        self.entries = found.entries;
        self.first_version = found.first_version;
        self.closed = found.closed;
        self.ready = true;
        Ok(())
    }

    /// Whether it has an entry of version 1 of the format. Such a log can be read but not appended
    /// to. `renew` with its last entry brings it to version 2.
    #[tactic(auto, using(crate::proofs::Openings::old_is_had))]
    pub fn is_old(&self) -> bool
        ensures value { result ≡ self.now.is_old }
        ensures exact { result ≡ has_old (log_entries self.now.is_old self.now.entries) }
    {
        self.first_version
    }

    /// The number of entries.
    pub fn count(&self) -> usize
        ensures { result ≡ length self.now.entries }
    {
        self.entries.len()
    }

    /// Entry `i`, counted from 0, the oldest first. `i` must be below the number of entries.
    pub fn entry(&self, i: usize) -> &Durable
        requires { i < length self.now.entries }
        ensures { slice_get self.now.entries i ≡ Some result.now }
    {
        &self.entries[i]
    }

    /// Its size: the number of bytes that it takes of its limit.
    pub fn size(&self) -> u64
        ensures { result ≡ self.now.size }
    {
        17 + self.closed
    }

    /// Returns the disk.
    pub fn into_disk(self) -> D
        ensures { result ≡ self.disk }
    {
        let Log { disk, .. } = self;
        disk
    }

    /// Whether it is ready. `append` and `renew` require this.
    pub fn is_ready(&self) -> bool
        ensures value { result ≡ self.now.ready }
        ensures ready { result ≡ true → IsReady D.content D.image self.now }
    {
        self.ready
    }

    /// Appends an entry after the others. After `Ok` a crash leaves a log that has it.
    ///
    /// The entry and its closed gate are written and synced first. The gate before the entry is
    /// then opened by a write of one byte, and synced. So a crash inside the call leaves the
    /// entries from before it, or these and the new one. An acceptor's entry holds only what its
    /// vote adds to the vote of the entry before it, if that vote is of the same epoch, is not
    /// empty and is a prefix of its own. Otherwise it holds the whole vote. After `Ok` the size has
    /// grown by the need of the entry. If the disk reveals its content, it holds the bytes of these
    /// two writes over those from before. No outcome changes whether it reveals it.
    ///
    /// It returns `Full` exactly if the size and the need of the entry together exceed the limit,
    /// unless memory runs out, and the log is then unchanged. It returns `Disk` only if the number
    /// of faults of the disk has increased or is 2^64 - 1, and `NoMemory` if memory runs out. After
    /// these two the log shows the entries that it showed, and is not ready, even if nothing was
    /// written.
    pub fn append(&mut self, entry: &Durable) -> Result<(), AppendFault>
        requires ready { self.old.ready ≡ true }
        requires new { self.old.is_old ≡ false }
        requires rules { KeepsRules entry.now }
        ensures appended { OnOk result (self.new.entries ≡ self.old.entries ++ entry.now ∷ []) }
        ensures version { OnOk result (self.new.is_old ≡ false) }
        ensures ready { OnOk result (IsReady D.content D.image self.new) }
        ensures size { OnOk result (self.new.size ≡ size_with self.old (part_of entry.now)) }
        ensures bytes { OnOk result (HoldsAppended D.content self.old self.new (part_of entry.now)) }
        ensures reveals { RevealsAlike (D.content self.old.disk) (D.content self.new.disk) }
        ensures any_moment { IfRevealed (D.content self.old.disk) (λ s. LeavesOnly D.moment D.since self.old.disk self.new.disk (OldOrAdded self.old.limit (log_entries false self.old.entries) (entry_for false entry.now))) }
        ensures full { IsFullWhere self.old.limit self.old.size (need (option_map part_of (last self.old.entries)) (part_of entry.now)) result }
        ensures left { StaysWhole self.old self.new result }
        ensures limit { self.new.limit ≡ self.old.limit }
        ensures cause { HasCause (D.faults self.old.disk) (D.faults self.new.disk) result }
    {
        let before = self.entries.last();
        let outcome = planned(self.alloc, before, entry, 17 + self.closed, self.limit);
        self.ready = is_full(&outcome);
        let plan = outcome?;
        let gate = first_gate(self.limit, self.second) + self.closed;
        write_and_mark(&mut self.disk, gate + 1, &plan.bytes[1..], gate, 1)?;
        self.entries.push(plan.entry)?;
        self.closed += plan.need;
        self.ready = true;
        Ok(())
    }

    /// Makes an entry the only one, with its whole vote. After `Ok` a crash leaves a log that has
    /// this entry alone.
    ///
    /// The entry is written into the area that is not active, and synced. The switch in the header
    /// is then changed by a write of one byte, and synced. So a crash inside the call leaves the
    /// entries from before it, or the new one alone.
    ///
    /// The errors are those of `append`, with a size of 17.
    pub fn renew(&mut self, entry: &Durable) -> Result<(), AppendFault>
        requires ready { self.old.ready ≡ true }
        requires rules { KeepsRules entry.now }
        ensures renewed { OnOk result (self.new.entries ≡ entry.now ∷ []) }
        ensures version { OnOk result (self.new.is_old ≡ false) }
        ensures ready { OnOk result (IsReady D.content D.image self.new) }
        ensures size { OnOk result (self.new.size ≡ 17 + need None (part_of entry.now)) }
        ensures reveals { RevealsAlike (D.content self.old.disk) (D.content self.new.disk) }
        ensures any_moment { IfRevealed (D.content self.old.disk) (λ s. LeavesOnly D.moment D.since self.old.disk self.new.disk (OldOrRenewed self.old.limit (log_entries self.old.is_old self.old.entries) (entry_for false entry.now))) }
        ensures full { IsFullWhere self.old.limit 17 (need None (part_of entry.now)) result }
        ensures left { StaysWhole self.old self.new result }
        ensures limit { self.new.limit ≡ self.old.limit }
        ensures cause { HasCause (D.faults self.old.disk) (D.faults self.new.disk) result }
    {
        let outcome = planned(self.alloc, None, entry, 17, self.limit);
        self.ready = is_full(&outcome);
        let plan = outcome?;
        let mut entries = Vec::new(self.alloc);
        entries.push(plan.entry)?;
        let other = first_gate(self.limit, !self.second);
        let switch = switch_to(!self.second);
        write_and_mark(&mut self.disk, other, &plan.bytes, 12, switch)?;
        self.entries = entries;
        self.first_version = false;
        self.second = !self.second;
        self.closed = plan.need;
        self.ready = true;
        Ok(())
    }
}

// The byte that says whether the second area is the active one.
fn switch_to(second: bool) -> u8
    ensures { is_second result ≡ second }
{
    u8::from(second)
}
