//! Disks in memory: one that never fails, and one with chosen calls that fail.
ghost use Rattle.std.specs.Prelude.{◌≡◌, ◌≤◌, ◌-◌, true, false, IfOk, IfErr, OnOk, OnErr, Ok, Some, length, min};
ghost use Rattle.gp_edge.specs.declared.call.Call.TheVariants as call;
ghost use Rattle.gp_edge.specs.declared.refusal.Refused.TheVariants as refused;
ghost use Rattle.gp_edge.specs.Calls.{is_to_fail};
ghost use Rattle.gp_edge.specs.DiskLaws.{now_counts, now_only, shows_it};
ghost use Rattle.gp_edge.specs.Disks.{ReadsAt, NoMore, Counts};
ghost use Rattle.gp_edge.specs.Records.{content_of, Images, IsImage, LeftSince, GoesOn, noted, disk_with, mem_disk_of, asked, asked_with, disk_refusal};

use crate::disk::Disk;
use crate::medium::Medium;
use crate::refusal::Refused;
use crate::schedule::Schedule;
use gp_memory::NoMemory;
use std::alloc::Global;
use std::marker::Model;

/// A disk in memory that never fails. A call is refused only if memory runs out.
///
/// A contract sees the bytes with which it was made, and a record of the later calls that changed
/// its bytes or what a crash may leave. What a crash at any moment may leave follows from these.
#[derive(Drop)]
pub struct CalmDisk {
    medium: Medium,
}

impl Model for CalmDisk {
    ghost use Rattle.gp_edge.specs.Records.{DiskRecord};

    ghost Value = { DiskRecord };

    ghost view = { λ d. d.medium };
}

impl CalmDisk {
    /// A disk with these bytes, all of them synced. `NoMemory` if memory runs out.
    pub fn new(alloc: Global, bytes: &[u8]) -> Result<CalmDisk, NoMemory>
        ensures { IfOk result (λ disk. disk ≡ disk_with bytes.now) }
    {
        Ok(CalmDisk {
            medium: Medium::new(alloc, bytes)?,
        })
    }

    /// What reads return.
    pub fn content(&self) -> &[u8]
        ensures { result.now ≡ content_of self.now }
    {
        self.medium.content()
    }
}

impl Disk for CalmDisk {
    ghost content = { λ d. Some (content_of d) };

    ghost image = { λ d c. IsImage d.opening d.calls c };

    ghost moment = { λ d. length d.calls };

    ghost since = { λ d t c. LeftSince d.opening d.calls t c };

    ghost faults = { λ d. 0 };

    ghost counts_now = { λ d t c le now. now_counts d.opening d.calls t c le now };

    ghost only_now = { λ d c left. now_only d.opening d.calls c left };

    ghost shows = { λ d s e. shows_it d.opening s d.calls e };

    /// Never fails, and never returns `NoMemory`.
    fn len(&mut self) -> Result<u64, Refused>
        ensures len { result ≡ Ok (length (content_of self.old)) }
        ensures unchanged { self.new ≡ self.old }
    {
        Ok(self.medium.len())
    }

    /// Never fails, and never returns `NoMemory`.
    fn read_at(&mut self, at: u64, into: &mut [u8]) -> Result<usize, Refused>
        ensures count { result ≡ Ok (min (length into.old) (length (content_of self.old) - at)) }
        ensures bytes { IfOk result (λ n. ReadsAt (content_of self.old) at n into.old into.new) }
        ensures unchanged { self.new ≡ self.old }
    {
        Ok(self.medium.read_at(at, into))
    }

    /// Writes all bytes, or nothing if memory runs out.
    fn write_at(&mut self, at: u64, from: &[u8]) -> Result<(), Refused>
        ensures written { OnOk result (self.new ≡ noted (call.Write at from.now) self.old) }
        ensures refused { IfErr result (λ e. e ≡ refused.NoMemory) }
        ensures unchanged { OnErr result (self.new ≡ self.old) }
        ensures time { GoesOn self.old self.new }
    {
        Ok(self.medium.write_at(at, from)?)
    }

    /// Cuts, or changes nothing if memory runs out.
    fn cut(&mut self, len: u64) -> Result<(), Refused>
        ensures cut { OnOk result (self.new ≡ noted (call.Cut len) self.old) }
        ensures refused { IfErr result (λ e. e ≡ refused.NoMemory) }
        ensures unchanged { OnErr result (self.new ≡ self.old) }
        ensures time { GoesOn self.old self.new }
    {
        Ok(self.medium.cut(len)?)
    }

    /// Syncs, or changes nothing if memory runs out.
    fn sync(&mut self) -> Result<(), Refused>
        ensures synced { OnOk result (self.new ≡ noted call.Sync self.old) }
        ensures refused { IfErr result (λ e. e ≡ refused.NoMemory) }
        ensures unchanged { OnErr result (self.new ≡ self.old) }
        ensures crash { NoMore (Images self.old) (Images self.new) }
        ensures time { GoesOn self.old self.new }
    {
        Ok(self.medium.sync()?)
    }
}

/// A disk in memory with chosen calls that fail. A call that fails changes no byte, and is not in
/// the record of calls.
///
/// A contract sees the same as of a `CalmDisk`, and which calls are to fail.
#[derive(Drop)]
pub struct MemDisk {
    medium: Medium,
    schedule: Schedule,
}

impl Model for MemDisk {
    ghost use Rattle.gp_edge.specs.Records.{MemDiskState};

    ghost Value = { MemDiskState };

    ghost view = { λ d. record { disk = d.medium; calls = d.schedule } };
}

impl MemDisk {
    /// A disk with these bytes, all of them synced. The calls with the numbers in `failing` fail.
    /// Calls of all five kinds are counted together, from 0. `NoMemory` if memory runs out.
    pub fn new(alloc: Global, bytes: &[u8], failing: &[u64]) -> Result<MemDisk, NoMemory>
        ensures { IfOk result (λ disk. disk ≡ mem_disk_of bytes.now failing.now) }
    {
        Ok(MemDisk {
            medium: Medium::new(alloc, bytes)?,
            schedule: Schedule::new(alloc, failing)?,
        })
    }

    /// What reads return.
    pub fn content(&self) -> &[u8]
        ensures { result.now ≡ content_of self.now.disk }
    {
        self.medium.content()
    }
}

impl Disk for MemDisk {
    ghost content = { λ d. Some (content_of d.disk) };

    ghost image = { λ d c. IsImage d.disk.opening d.disk.calls c };

    ghost moment = { λ d. length d.disk.calls };

    ghost since = { λ d t c. LeftSince d.disk.opening d.disk.calls t c };

    ghost faults = { λ d. d.calls.faults };

    ghost counts_now = { λ d t c le now. now_counts d.disk.opening d.disk.calls t c le now };

    ghost only_now = { λ d c left. now_only d.disk.opening d.disk.calls c left };

    ghost shows = { λ d s e. shows_it d.disk.opening s d.disk.calls e };

    /// Fails exactly if this call is to fail.
    fn len(&mut self) -> Result<u64, Refused>
        ensures len { IfOk result (λ n. n ≡ length (content_of self.old.disk)) }
        ensures accepted { OnOk result (is_to_fail self.old.calls ≡ false) }
        ensures refused { OnErr result (is_to_fail self.old.calls ≡ true) }
        ensures after { self.new ≡ asked self.old }
        ensures count { Counts self.old.calls.faults self.new.calls.faults result }
    {
        if self.schedule.call() {
            return Err(Refused::Failed);
        }
        Ok(self.medium.len())
    }

    /// Fails exactly if this call is to fail.
    fn read_at(&mut self, at: u64, into: &mut [u8]) -> Result<usize, Refused>
        ensures bytes { IfOk result (λ n. ReadsAt (content_of self.old.disk) at n into.old into.new) }
        ensures within { IfOk result (λ n. n ≤ length into.old) }
        ensures accepted { OnOk result (is_to_fail self.old.calls ≡ false) }
        ensures refused { OnErr result (is_to_fail self.old.calls ≡ true) }
        ensures after { self.new ≡ asked self.old }
        ensures count { Counts self.old.calls.faults self.new.calls.faults result }
    {
        if self.schedule.call() {
            return Err(Refused::Failed);
        }
        Ok(self.medium.read_at(at, into))
    }

    /// Returns `Failed` if this call is to fail. Any other call returns `NoMemory` if memory runs
    /// out. After both errors the bytes are unchanged.
    fn write_at(&mut self, at: u64, from: &[u8]) -> Result<(), Refused>
        ensures accepted { OnOk result (is_to_fail self.old.calls ≡ false) }
        ensures refused { IfErr result (λ e. e ≡ disk_refusal self.old) }
        ensures written { OnOk result (self.new ≡ asked_with (call.Write at from.now) self.old) }
        ensures unchanged { OnErr result (self.new ≡ asked self.old) }
        ensures time { GoesOn self.old.disk self.new.disk }
        ensures count { Counts self.old.calls.faults self.new.calls.faults result }
    {
        if self.schedule.call() {
            return Err(Refused::Failed);
        }
        Ok(self.medium.write_at(at, from)?)
    }

    /// Returns `Failed` if this call is to fail. Any other call returns `NoMemory` if memory runs
    /// out. After both errors the bytes are unchanged.
    fn cut(&mut self, len: u64) -> Result<(), Refused>
        ensures accepted { OnOk result (is_to_fail self.old.calls ≡ false) }
        ensures refused { IfErr result (λ e. e ≡ disk_refusal self.old) }
        ensures cut { OnOk result (self.new ≡ asked_with (call.Cut len) self.old) }
        ensures unchanged { OnErr result (self.new ≡ asked self.old) }
        ensures time { GoesOn self.old.disk self.new.disk }
        ensures count { Counts self.old.calls.faults self.new.calls.faults result }
    {
        if self.schedule.call() {
            return Err(Refused::Failed);
        }
        Ok(self.medium.cut(len)?)
    }

    /// Returns `Failed` if this call is to fail. Any other call returns `NoMemory` if memory runs
    /// out. After both errors a crash may leave the same as before.
    fn sync(&mut self) -> Result<(), Refused>
        ensures accepted { OnOk result (is_to_fail self.old.calls ≡ false) }
        ensures refused { IfErr result (λ e. e ≡ disk_refusal self.old) }
        ensures synced { OnOk result (self.new ≡ asked_with call.Sync self.old) }
        ensures unchanged { OnErr result (self.new ≡ asked self.old) }
        ensures crash { NoMore (Images self.old.disk) (Images self.new.disk) }
        ensures time { GoesOn self.old.disk self.new.disk }
        ensures count { Counts self.old.calls.faults self.new.calls.faults result }
    {
        if self.schedule.call() {
            return Err(Refused::Failed);
        }
        Ok(self.medium.sync()?)
    }
}
