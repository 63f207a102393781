//! The run of commands that are driven one by one.
ghost use Rattle.std.specs.Prelude.{◌≡◌, ◌≤◌, IfOk, OnOk, codes};
ghost use Rattle.gp_round.specs.Ranges.{AreInRange};
ghost use Rattle.gp_world.specs.State.{entries_of};
ghost use Rattle.gp_driver.specs.Driven.{DrivesMulti};
ghost use Rattle.gp_sim.specs.Driven.{puts, driven};

use crate::stepping::out_of_memory;
use gp_command::{Draft, Key, NoMemory};
use gp_driver::drive_multi;
use gp_round::Config;
use gp_store::{Op, draft_of};
use gp_world::World;
use std::alloc::Global;
use std::sync::Wait;

/// The greatest number of commands that are driven.
pub const MOST_DRIVEN: u32 = 64;

// The key `k`.
fn key() -> Key
    ensures { result ≡ codes "k" }
{
    match Key::new(b"k") {
        Ok(key) => key,
        Err(_) => unreachable!(),
    }
}

// The drafts `put k 1` to `put k N`.
fn puts(alloc: Global, commands: u32) -> Result<Vec<Draft>, NoMemory>
    ensures { IfOk result (λ drafts. drafts.items ≡ puts commands) }
{
    let mut drafts = Vec::new(alloc);
    for before in 0..commands {
        drafts.push(draft_of(alloc, Op::Put(key(), u64::from(before) + 1))?)?;
    }
    Ok(drafts)
}

// The numbers of a configuration are in range.
fn in_range(config: &Config)
    ensures { AreInRange config.now.acceptors config.now.coordinators config.now.learners }
{
    let _counts = (config.acceptors(), config.coordinators(), config.learners());
}

/// The world after the commands `put k 1` to `put k N` were driven, one after another, to all its
/// learners. The configuration has three coordinators, and the last of them does nothing. N is
/// `commands`, which is at most `MOST_DRIVEN`. `NoMemory` if memory runs out.
pub fn drive<W: Wait>(
    rt: &W,
    alloc: Global,
    config: Config,
    commands: u32,
) -> Result<World, NoMemory>
    requires three { config.coordinators ≡ 3 }
    requires few { commands ≤ MOST_DRIVEN }
    ensures config { IfOk result (λ world. world.config ≡ config) }
    ensures run { IfOk result (λ world. entries_of world ≡ driven config commands) }
    ensures brings { OnOk result (DrivesMulti config (puts commands)) }
{
    let drafts = puts(alloc, commands)?;
    let mut world = World::new(alloc, config)?;
    in_range(&config);
    match drive_multi(rt, &mut world, drafts) {
        Ok(_events) => Ok(world),
        Err(fault) => Err(out_of_memory(fault)),
    }
}
