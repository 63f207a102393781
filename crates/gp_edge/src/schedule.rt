//! Which calls of an object in memory are to fail.
ghost use Rattle.std.specs.Prelude.{◌≡◌, ◌≤◌, false, IfOk};
ghost use Rattle.gp_edge.specs.Calls.{scheduled, is_to_fail, called};

use gp_memory::NoMemory;
use std::alloc::Global;
use std::marker::Model;

/// The numbers, from 0, of the calls that are to fail; how many calls there were; and how many of
/// them failed. The two counts end at 2^64 - 1.
#[derive(Drop)]
pub(crate) struct Schedule {
    failing: Vec<u64>,
    made: u64,
    faults: u64,
}

impl Model for Schedule {
    ghost use Rattle.gp_edge.specs.Calls.{Calls};

    ghost Value = { Calls };

    ghost view = { λ s. record { failing = s.failing.items; made = s.made; faults = s.faults } };
}

impl Schedule {
    /// A schedule before the first call.
    pub(crate) fn new(alloc: Global, failing: &[u64]) -> Result<Schedule, NoMemory>
        ensures { IfOk result (λ schedule. schedule ≡ scheduled failing.now) }
    {
        Ok(Schedule {
            failing: Vec::from_slice(alloc, failing)?,
            made: 0,
            faults: 0,
        })
    }

    /// Counts a call, and returns whether it is to fail.
    pub(crate) fn call(&mut self) -> bool
        ensures fails { result ≡ is_to_fail self.old }
        ensures next { self.new ≡ called self.old }
        ensures never_falls { self.old.faults ≤ self.new.faults }
        ensures steady { result ≡ false → self.new.faults ≡ self.old.faults }
    {
        let fails = self.failing.contains(&self.made);
        if fails {
            self.faults = self.faults.saturating_add(1);
        }
        self.made = self.made.saturating_add(1);
        fails
    }
}
