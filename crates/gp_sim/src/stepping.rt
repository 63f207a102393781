//! Steps of a world that fail only if memory runs out.
ghost use Rattle.std.specs.Prelude.{◌≡◌, ◌<◌, ◌∷◌, ◌^◌, true, length, OnOk};
ghost use Rattle.gp_run.specs.Legal.{fits, Legal};
ghost use Rattle.gp_run.specs.Runs.{entry_after};
ghost use Rattle.gp_world.specs.State.{entries_of};

use gp_command::NoMemory;
use gp_driver::StageFault;
use gp_msg::Event;
use gp_world::{StepRefused, World};

/// Why a driver of a world ended early: memory ran out.
pub(crate) fn out_of_memory(fault: StageFault) -> NoMemory
    requires { fault ≡ StageFault.NoMemory }
{
    match fault {
        StageFault::NoMemory => NoMemory,
        StageFault::Disk | StageFault::Full { .. } => unreachable!(),
    }
}

// Why an event that fits was refused: memory ran out.
fn unhappened(refused: StepRefused) -> NoMemory
    requires { refused ≡ StepRefused.NoMemory }
{
    match refused {
        StepRefused::NoMemory => NoMemory,
        _ => unreachable!(),
    }
}

/// Executes an event that fits.
pub(crate) fn happen(world: &mut World, event: Event) -> Result<(), NoMemory>
    requires few { length world.old.records < 2 ^ 31 }
    requires fits { fits world.old.config (entries_of world.old) event ≡ true }
    ensures config { OnOk result (world.new.config ≡ world.old.config) }
    ensures entry { OnOk result (entries_of world.new
        ≡ entry_after world.old.config (entries_of world.old) event ∷ entries_of world.old) }
    ensures legal { Legal world.new.config (entries_of world.new) }
{
    match world.step(event) {
        Ok(_messages) => Ok(()),
        Err(refused) => Err(unhappened(refused)),
    }
}
