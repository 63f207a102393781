//! A run from its offers to its end.
ghost use Rattle.std.specs.Prelude.{◌≡◌, ◌≤◌, ◌<◌, ◌+◌, ◌^◌, ℕ, List, None, length, IfOk};
ghost use Rattle.std.specs.List.{All};
ghost use Rattle.gp_phase.specs.Beside.{topics};
ghost use Rattle.gp_command.specs.Views.{DraftView};
ghost use Rattle.gp_work.specs.declared.job.Job.{Job as JobOf};
ghost use Rattle.gp_cell.specs.Cells.{CellState};
ghost use Rattle.gp_ending.specs.declared.ends.RunEnd.TheVariants as RunEnd;
ghost use Rattle.gp_seats.specs.Offering.{IsKnown};
ghost use Rattle.gp_seats.specs.Seats.{IsBlank};
ghost use Rattle.gp_shelf.specs.Lists.{HasRoomFor};
ghost use Rattle.gp_cluster.specs.declared.policy.RoundPolicy.{RoundPolicy};
ghost use Rattle.gp_cluster.specs.Seated.{IsSeated, CanClose, IsCarriedRun, RunsFrom, logs_in};

use crate::adapting::run_adapting;
use crate::closing::{Closed, leave};
use crate::gathering::take_cells;
use crate::policy::RoundPolicy;
use crate::settling::conclude;
use crate::turning::run_in_turn;
use gp_cell::PaxosRules;
use gp_command::NoMemory;
use gp_edge::{Disk, Gate};
use gp_ending::{RunEnd, Worked};
use gp_node::{Cell, Job};
use gp_phase::{Beside, Trio};
use gp_round::Config;
use gp_seats::{OfferList, Seated, Unseated, seat_all};
use gp_shelf::DISKS;
use gp_vlog::Log;
use gp_wire::Wire;
use std::alloc::Global;
use std::sync::Wait;
use std::thread::Threads;

/// The number of nodes in the greatest configuration: seven acceptors, five coordinators, four
/// learners and the eight proposers.
const MAX_NODES: usize = 24;

/// Room that is reserved before a run, so that its logs are returned even if memory runs out.
#[derive(Drop)]
pub(crate) struct Room<D: Disk> {
    pub(crate) cells: Vec<Cell<D>>,
    pub(crate) logs: Vec<Log<D>>,
}

/// How many nodes of each kind there are at least and at most.
pub(crate) fn know(config: Config)
    ensures acceptors { (3 ≤ config.acceptors) × (config.acceptors ≤ 7) }
    ensures coordinators { (1 ≤ config.coordinators) × (config.coordinators ≤ 5) }
    ensures learners { config.learners ≤ 4 }
{
    let _acceptors = config.acceptors();
    let _coordinators = config.coordinators();
    let _learners = config.learners();
}

/// The room for the cells and the logs of all nodes of a configuration.
pub(crate) fn take_room<D: Disk>(alloc: Global) -> Result<Room<D>, NoMemory>
    ensures cells { IfOk result (λ room. HasRoomFor 24 room.cells) }
    ensures logs { IfOk result (λ room. HasRoomFor 12 room.logs) }
{
    let mut cells = Vec::new(alloc);
    let mut logs = Vec::new(alloc);
    cells.reserve(MAX_NODES)?;
    logs.reserve(DISKS as usize)?;
    Ok(Room { cells, logs })
}

/// The end of a run whose wire is not closed because memory ran out: the logs of the nodes that
/// work are returned.
pub(crate) fn unclosed<D: Disk>(jobs: Vec<Job<D>>, room: Room<D>) -> Closed<D>
    requires cells_room { HasRoomFor (length jobs.items) room.cells }
    requires logs_room { HasRoomFor (length (logs_in jobs.items)) room.logs }
    ensures posted { result.posted ≡ None }
    ensures end { result.end ≡ RunEnd.NoMemory }
    ensures logs { result.logs.items ≡ logs_in jobs.items }
{
    let Room { mut cells, logs } = room;
    take_cells(jobs, &mut cells);
    leave(cells, logs)
}

/// Closes the wire of a run of nodes, with the jobs of the nodes that work and those of the
/// proposers. If nothing was left to do and a learner has fewer than `commands` commands, the run
/// is settled.
pub(crate) fn close_run<D: Disk, W: Wait, G: Gate>(
    rt: &W,
    alloc: Global,
    config: Config,
    wire: Wire<PaxosRules>,
    worked: Worked<D>,
    proposers: Vec<Job<D>>,
    room: Room<D>,
    commands: usize,
    gate: &G,
) -> Closed<D>
    requires run { CanClose D.content D.faults config wire worked.jobs.items proposers.items worked.end commands room.logs }
    requires cells_room { HasRoomFor (length worked.jobs.items + length proposers.items) room.cells }
    ensures run { (policy : RoundPolicy) (offers : List (ℕ × DraftView)) (jobs proposing : List (JobOf (CellState D))) → commands ≡ length offers
        → IsCarriedRun D.content D.faults policy config wire offers jobs proposing worked.jobs.items proposers.items worked.end
        → RunsFrom policy D.faults D.content config offers (logs_in jobs) result.logs.items result.posted result.end }
    ensures early { result.end ≡ RunEnd.Learned → worked.end ≡ None }
{
    know(config);
    let Room { mut cells, logs } = room;
    take_cells(worked.jobs, &mut cells);
    take_cells(proposers, &mut cells);
    conclude(
        rt, alloc, config, wire, cells, logs, worked.end, commands, gate,
    )
}

/// Runs the nodes of a configuration that are seated at a wire, in the rounds of the policy, and
/// closes the wire.
fn run_seated<
    D: Disk + Send,
    A: Beside<Wire<PaxosRules>, Cell<D>> + Send,
    B: Beside<Wire<PaxosRules>, Cell<D>> + Send,
    W: Threads + Wait + Sync,
    G: Gate + Sync,
>(
    rt: &W,
    alloc: Global,
    config: Config,
    policy: RoundPolicy,
    seated: Seated<D>,
    offers: &OfferList,
    beside: &mut Trio<A, B>,
    room: Room<D>,
    gate: &G,
) -> Closed<D>
    requires seated { IsSeated config seated.wire seated.jobs.items seated.proposers.items (logs_in seated.jobs.items) }
    requires few { length offers.now < 2 ^ 32 }
    requires known { All IsKnown offers.now }
    requires cells_room { HasRoomFor (length seated.jobs.items + length seated.proposers.items) room.cells }
    requires logs_room { HasRoomFor (length (logs_in seated.jobs.items)) room.logs }
    ensures run { RunsFrom policy D.faults D.content config offers.now (logs_in seated.jobs.items) result.logs.items result.posted result.end }
    ensures topics { topics A.topic B.topic beside.new ≡ topics A.topic B.topic beside.old }
{
    match policy {
        RoundPolicy::Multi => run_in_turn(rt, alloc, config, seated, offers, beside, room, gate),
        RoundPolicy::Adaptive => run_adapting(
            rt, alloc, config, seated, offers, beside, room, gate,
        ),
    }
}

/// Runs the nodes of a configuration over these logs, from the seating of the nodes to the closing
/// of their wire.
pub(crate) fn run_logs<
    D: Disk + Send,
    A: Beside<Wire<PaxosRules>, Cell<D>> + Send,
    B: Beside<Wire<PaxosRules>, Cell<D>> + Send,
    W: Threads + Wait + Sync,
    G: Gate + Sync,
>(
    rt: &W,
    alloc: Global,
    config: Config,
    policy: RoundPolicy,
    logs: Vec<Log<D>>,
    offers: &OfferList,
    beside: &mut Trio<A, B>,
    room: Room<D>,
    gate: &G,
) -> Closed<D>
    requires count { length logs.items ≡ config.acceptors + config.coordinators }
    requires blank { All IsBlank logs.items }
    requires few { length offers.now < 2 ^ 32 }
    requires known { All IsKnown offers.now }
    requires cells_room { HasRoomFor 24 room.cells }
    requires logs_room { HasRoomFor 12 room.logs }
    ensures run { RunsFrom policy D.faults D.content config offers.now logs.items result.logs.items result.posted result.end }
    ensures topics { topics A.topic B.topic beside.new ≡ topics A.topic B.topic beside.old }
{
    know(config);
    match seat_all(alloc, config, logs) {
        Ok(seated) => run_seated(
            rt, alloc, config, policy, seated, offers, beside, room, gate,
        ),
        Err(Unseated { logs }) => Closed {
            end: RunEnd::NoMemory,
            posted: None,
            logs,
        },
    }
}
