//! The world of a list of records.
ghost use Rattle.std.specs.Prelude.{◌≡◌, ◌<◌, ◌∷◌, ◌^◌, length, IfOk, OnOk};
ghost use Rattle.gp_msg.specs.Messages.{entry_of};
ghost use Rattle.gp_run.specs.Legal.{Legal, Follows};
ghost use Rattle.gp_run.specs.Runs.{newest_first};
ghost use Rattle.gp_world.specs.State.{entries_of};

use gp_command::NoMemory;
use gp_msg::Record;
use gp_round::Config;
use gp_world::World;
use std::alloc::Global;

// The greatest number of records of a world.
const MOST_RECORDS: usize = 2_147_483_648;

/// The world after the events of these records, in their order. The records are a legal run of the
/// configuration. Returns `NoMemory` if memory runs out, and also if there are more than 2^31
/// records, which a world cannot hold.
pub fn world_of(alloc: Global, config: Config, records: &[Record]) -> Result<World, NoMemory>
    requires { Legal config (newest_first records.now) }
    ensures config { IfOk result (λ world. world.config ≡ config) }
    ensures entries { IfOk result (λ world. entries_of world ≡ newest_first records.now) }
{
    if records.len() > MOST_RECORDS {
        return Err(NoMemory);
    }
    let mut world = World::new(alloc, config)?;
    for at in 0..records.len() {
        retell(&mut world, &records[at])?;
    }
    Ok(world)
}

// Repeats the event of a record, which may come next. Such an event is refused only if memory runs
// out.
fn retell(world: &mut World, happened: &Record) -> Result<(), NoMemory>
    requires few { length world.old.records < 2 ^ 31 }
    requires follows { Follows world.old.config (entries_of world.old) (entry_of happened.now) }
    ensures config { OnOk result (world.new.config ≡ world.old.config) }
    ensures entries { OnOk result (entries_of world.new ≡ entry_of happened.now ∷ entries_of world.old) }
{
    match world.step(happened.event.copy()?) {
        Ok(_) => Ok(()),
        Err(_) => Err(NoMemory),
    }
}
