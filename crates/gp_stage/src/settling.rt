//! Settling the run of cells.
ghost use Rattle.std.specs.Prelude.{◌↔◌, ◌≤◌, ◌+◌, ◌*◌, IsTrue, OnOk};
ghost use Rattle.gp_run.specs.Runs.{newest_first};
ghost use Rattle.gp_driver.specs.Settling.{settle};
ghost use Rattle.gp_driver.specs.Stages.{HasDriven, IsProposer, StageGoes, FailsByNode};
ghost use Rattle.gp_driver.specs.Settled.{Settles};
ghost use Rattle.gp_stage.specs.Held.{AreUp, stage_of, whole_list};
ghost use Rattle.gp_stage.specs.Bounds.{CanSettle, IsWithin};

use crate::cells::CellStage;
use gp_driver::{StageFault, settle};
use gp_edge::{Disk, Gate};
use gp_round::LAST_COUNT;
use std::sync::Wait;

/// `settle_cells` settles a run only if the greatest count of a round in it and the number of its
/// messages add up to at most this.
pub const MOST_ROUNDS: u64 = LAST_COUNT as u64 - 1;

/// `settle_cells` settles a run only if its bound for the number of entries of the settled run is
/// at most this.
pub const MOST_ENTRIES: u64 = 2_147_483_648;

// Whether the rounds of a run with this top count and so many messages are within the bound.
fn is_low(top: u32, messages: u64) -> bool
    ensures { IsTrue result ↔ (top + messages ≤ MOST_ROUNDS) }
{
    messages <= MOST_ROUNDS && top as u64 + messages <= MOST_ROUNDS
}

// Whether a run of so many entries and messages is short enough.
fn is_short(entries: u64, messages: u64) -> bool
    ensures { IsTrue result ↔ (entries + 71 * messages + 50 ≤ MOST_ENTRIES) }
{
    if messages > MOST_ENTRIES {
        return false;
    }
    entries <= MOST_ENTRIES && entries + 71 * messages + 50 <= MOST_ENTRIES
}

impl<'a, D: Disk, G: Gate> CellStage<'a, D, G> {
    // Whether the run is within the bounds of settling. Then it can be settled.
    fn can_settle(&self) -> bool
        ensures within { IsTrue result ↔ IsWithin self.now.config (newest_first (whole_list self.now)) }
        ensures can { IsTrue result → CanSettle self.now.config (newest_first (whole_list self.now)) }
    {
        let _counts = (
            self.config.acceptors(),
            self.config.coordinators(),
            self.config.learners(),
        );
        let messages = self.kinds.len() as u64;
        let entries = self.cells[self.holder].seen();
        is_low(self.top, messages) && is_short(entries, messages)
    }
}

/// Settles the run of cells that are all up: every learner then holds every offered command.
/// Returns the number of events that this took. The first fault of a step ends it.
///
/// `NoMemory` is returned if memory runs out. It is also returned if the run has too many rounds
/// and messages for `MOST_ROUNDS`, or if the settled run might be longer than `MOST_ENTRIES`.
///
/// `Disk` and `Full` are returned only if the stage's count of faults has risen or is 2^64 - 1: for
/// `Full` it has risen by one. `Disk` is a fault of the disk of one of the cells. The numbers of
/// `Full` are too great for an event, not a crash, that fits the run as it is then. After any other
/// result the count is unchanged. After any result but `Disk` the counts of all disks are
/// unchanged.
///
/// Whatever the result is, the run extends the run before, the cells keep their order, the count of
/// faults of each disk does not decrease, and no proposer makes an event.
pub fn settle_cells<D: Disk, G: Gate, W: Wait>(
    rt: &W,
    stage: &mut CellStage<'_, D, G>,
) -> Result<u64, StageFault>
    requires { AreUp stage.old.cells }
    ensures driven { HasDriven (stage_of D.faults stage.old) (stage_of D.faults stage.new)
        (settle stage.old.config (newest_first (whole_list stage.old))) result }
    ensures goes { StageGoes IsProposer (stage_of D.faults stage.old) (stage_of D.faults stage.new) }
    ensures failed { FailsByNode (stage_of D.faults stage.old).nodes (stage_of D.faults stage.new).nodes result }
    ensures brings { OnOk result (Settles stage.old.config (newest_first (whole_list stage.old))) }
{
    if !stage.can_settle() {
        return Err(StageFault::NoMemory);
    }
    settle(rt, stage)
}
