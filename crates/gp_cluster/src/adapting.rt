//! Runs whose rounds adapt to collisions.
ghost use Rattle.std.specs.Prelude.{◌≡◌, ◌<◌, ◌+◌, ◌^◌, length};
ghost use Rattle.std.specs.List.{All};
ghost use Rattle.gp_seats.specs.Offering.{IsKnown};
ghost use Rattle.gp_shelf.specs.Lists.{HasRoomFor};
ghost use Rattle.gp_phase.specs.Beside.{topics};
ghost use Rattle.gp_cluster.specs.declared.policy.RoundPolicy.TheVariants.{Adaptive};
ghost use Rattle.gp_cluster.specs.Seated.{IsSeated, RunsFrom, logs_in};

use crate::closing::Closed;
use crate::seated::{Room, close_run, know, unclosed};
use gp_adapt::{ChooseMode, Scene};
use gp_caller::{AdaptiveCaller, mode_after};
use gp_cell::PaxosRules;
use gp_edge::{Disk, Gate};
use gp_ending::{Worked, go_on, work};
use gp_node::Cell;
use gp_phase::{Beside, Trio};
use gp_round::Config;
use gp_seats::{OfferList, Seated, offer_all};
use gp_wire::Wire;
use std::alloc::Global;
use std::sync::Wait;
use std::thread::Threads;

/// Works until nothing is left to do, posts the offers, works again, and closes the wire.
pub(crate) fn run_adapting<
    D: Disk + Send,
    A: Beside<Wire<PaxosRules>, Cell<D>> + Send,
    B: Beside<Wire<PaxosRules>, Cell<D>> + Send,
    W: Threads + Wait + Sync,
    G: Gate + Sync,
>(
    rt: &W,
    alloc: Global,
    config: Config,
    seated: Seated<D>,
    offers: &OfferList,
    beside: &mut Trio<A, B>,
    room: Room<D>,
    gate: &G,
) -> Closed<D>
    requires seated { IsSeated config seated.wire seated.jobs.items seated.proposers.items (logs_in seated.jobs.items) }
    requires few { length offers.now < 2 ^ 32 }
    requires known { All IsKnown offers.now }
    requires cells_room { HasRoomFor (length seated.jobs.items + length seated.proposers.items) room.cells }
    requires logs_room { HasRoomFor (length (logs_in seated.jobs.items)) room.logs }
    ensures run { RunsFrom Adaptive D.faults D.content config offers.now (logs_in seated.jobs.items) result.logs.items result.posted result.end }
    ensures topics { topics A.topic B.topic beside.new ≡ topics A.topic B.topic beside.old }
{
    know(config);
    let choose: ChooseMode = match Box::new(alloc, |scene: &Scene| mode_after(scene)) {
        Ok(choose) => choose,
        Err(_) => return unclosed(seated.jobs, room),
    };
    let Ok(mut caller) = AdaptiveCaller::new(alloc, config, choose) else {
        return unclosed(seated.jobs, room);
    };
    let Seated {
        wire,
        jobs,
        proposers,
    } = seated;
    let nobody = Vec::new(alloc);
    let rested = work(
        rt,
        alloc,
        config,
        &wire,
        &mut caller,
        beside,
        &nobody,
        jobs,
        gate,
    );
    if rested.end.is_some() {
        return close_run(rt, alloc, config, wire, rested, proposers, room, 0, gate);
    }
    let Ok(offered) = offer_all(rt, alloc, &wire, proposers, offers, gate) else {
        return unclosed(rested.jobs, room);
    };
    let worked = go_on(
        rt,
        alloc,
        config,
        &wire,
        &mut caller,
        beside,
        &offered,
        rested.jobs,
        gate,
    );
    let commands = offers.as_slice().len();
    close_run(
        rt, alloc, config, wire, worked, offered, room, commands, gate,
    )
}
