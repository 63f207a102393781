//! Disks in memory that count their calls, fail some of them, and may be exchanged for another disk.
ghost use Rattle.std.specs.Prelude.{◌≡◌, ◌≤◌, true, false, None};
ghost use Rattle.gp_edge.specs.Faults.{Rose};

use gp_command::NoMemory;
use gp_edge::{CalmDisk, Disk, Refused};
use std::alloc::Global;

/// No call is that of an exchange.
pub const NEVER: u64 = u64::MAX;

/// What happens to a disk: the numbers of its calls that fail, counted from 0, the call from which on
/// another disk is in its place, and the bytes of that disk.
#[derive(Clone, Copy)]
pub struct Plan<'a> {
    pub failing: &'a [u64],
    pub exchanged: u64,
    pub bytes: &'a [u8],
}

/// Nothing happens.
pub const CALM: Plan<'static> = Plan {
    failing: &[],
    exchanged: NEVER,
    bytes: b"",
};

/// A disk that counts its calls. A contract sees nothing of its content.
#[derive(Drop)]
pub struct Double<'a> {
    plan: Plan<'a>,
    disk: CalmDisk,
    other: CalmDisk,
    calls: u64,
    faults: u64,
}

impl<'a> Double<'a> {
    /// An empty disk. `NoMemory` if memory runs out.
    pub fn new(alloc: Global, plan: Plan<'a>) -> Result<Double<'a>, NoMemory> {
        Ok(Double {
            plan,
            disk: CalmDisk::new(alloc, b"")?,
            other: CalmDisk::new(alloc, plan.bytes)?,
            calls: 0,
            faults: 0,
        })
    }

    /// How many calls came.
    pub fn calls(&self) -> u64 {
        self.calls
    }

    /// How many calls failed.
    pub fn faults(&self) -> u64 {
        self.faults
    }

    // Counts a call, and returns whether it fails.
    fn fails(&mut self) -> bool
        ensures never_falls { self.old.faults ≤ self.new.faults }
        ensures failed { result ≡ true → Rose self.old.faults self.new.faults }
        ensures steady { result ≡ false → self.new.faults ≡ self.old.faults }
    {
        let fails = self.plan.failing.contains(&self.calls);
        self.calls = self.calls.saturating_add(1);
        if fails {
            self.faults = self.faults.saturating_add(1);
        }
        fails
    }

    // Whether the other disk is in place.
    fn is_exchanged(&self) -> bool {
        self.calls > self.plan.exchanged
    }
}

impl<'a> Disk for Double<'a> {
    ghost content = { λ d. None };

    // A crash may leave anything.
    ghost image = { λ d c. Unit {0} };

    ghost moment = { λ d. 0 };

    ghost since = { λ d t c. Unit {0} };

    ghost faults = { λ d. d.faults };

    ghost counts_now = { λ d t c le now. tt };

    ghost only_now = { λ d c left. tt };

    ghost shows = { λ d s e. tt };

    fn len(&mut self) -> Result<u64, Refused> {
        if self.fails() {
            return Err(Refused::Failed);
        }
        if self.is_exchanged() {
            self.other.len()
        } else {
            self.disk.len()
        }
    }

    fn read_at(&mut self, at: u64, into: &mut [u8]) -> Result<usize, Refused> {
        if self.fails() {
            return Err(Refused::Failed);
        }
        if self.is_exchanged() {
            self.other.read_at(at, into)
        } else {
            self.disk.read_at(at, into)
        }
    }

    fn write_at(&mut self, at: u64, from: &[u8]) -> Result<(), Refused> {
        if self.fails() {
            return Err(Refused::Failed);
        }
        if self.is_exchanged() {
            self.other.write_at(at, from)
        } else {
            self.disk.write_at(at, from)
        }
    }

    fn cut(&mut self, len: u64) -> Result<(), Refused> {
        if self.fails() {
            return Err(Refused::Failed);
        }
        if self.is_exchanged() {
            self.other.cut(len)
        } else {
            self.disk.cut(len)
        }
    }

    fn sync(&mut self) -> Result<(), Refused> {
        if self.fails() {
            return Err(Refused::Failed);
        }
        if self.is_exchanged() {
            self.other.sync()
        } else {
            self.disk.sync()
        }
    }
}
