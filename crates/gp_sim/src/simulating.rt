//! The run of a workload that is made from a seed.
ghost use Rattle.std.specs.Prelude.{◌≡◌, ◌≤◌, [], IfOk, OnOk};
ghost use Rattle.gp_random.specs.Plans.{plan_of};
ghost use Rattle.gp_world.specs.State.{entries_of};
ghost use Rattle.gp_sim.specs.Simulated.{sim_config, drawn, simulated};
ghost use Rattle.gp_sim.specs.Learned.{Simulates};

use crate::stepping::{happen, out_of_memory};
use gp_command::NoMemory;
use gp_driver::settle;
use gp_random::Workload;
use gp_round::Config;
use gp_world::World;
use std::alloc::Global;
use std::sync::Wait;

// Three acceptors, three coordinators and two learners.
fn sim_config() -> Config
    ensures { result ≡ sim_config }
{
    match Config::new(3, 3, 2) {
        Ok(config) => config,
        Err(_) => unreachable!(),
    }
}

// Executes the events of the workload of a seed.
fn draw(alloc: Global, seed: u64, commands: u32) -> Result<World, NoMemory>
    requires some { 1 ≤ commands }
    requires few { commands ≤ 256 }
    ensures config { IfOk result (λ world. world.config ≡ sim_config) }
    ensures run { IfOk result (λ world. entries_of world ≡ drawn seed commands) }
{
    let mut world = World::new(alloc, sim_config())?;
    let mut workload = Workload::new(alloc, seed, commands)?;
    while let Some(event) = workload.next(world.messages())? {
        happen(&mut world, event)?;
    }
    Ok(world)
}

/// The world after the workload of a seed, with 1 to `gp_random::MOST_COMMANDS` commands, was
/// executed and settled. Both learners then hold every command.
///
/// Three acceptors, three coordinators and two learners take part. The events of the workload are
/// executed one after another. Then coordinator 0 leads single rounds until every offered command
/// is learned. `NoMemory` if memory runs out.
pub fn simulate<W: Wait>(rt: &W, alloc: Global, seed: u64, commands: u32) -> Result<World, NoMemory>
    requires some { 1 ≤ commands }
    requires few { commands ≤ 256 }
    ensures config { IfOk result (λ world. world.config ≡ sim_config) }
    ensures run { IfOk result (λ world. entries_of world ≡ simulated seed commands) }
    ensures learned { Simulates seed commands }
{
    let mut world = draw(alloc, seed, commands)?;
    let _legal = world.records();
    match settle(rt, &mut world) {
        Ok(_events) => Ok(world),
        Err(fault) => Err(out_of_memory(fault)),
    }
}
