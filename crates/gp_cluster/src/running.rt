//! Runs of nodes.
ghost use Rattle.std.specs.Prelude.{◌≡◌, ◌⊎◌, ◌<◌, ◌≤◌, ◌^◌, None, length, IfSome};
ghost use Rattle.std.specs.List.{All};
ghost use Rattle.gp_run.specs.Runs.{newest_first};
ghost use Rattle.gp_seats.specs.Offering.{IsKnown};
ghost use Rattle.gp_shelf.specs.Lists.{KeepsOthers};
ghost use Rattle.gp_shelf.specs.Making.{SomeRose, NoneFell};
ghost use Rattle.gp_ending.specs.declared.ends.RunEnd.TheVariants as RunEnd;
ghost use Rattle.gp_phase.specs.Beside.{topics};
ghost use Rattle.gp_cluster.specs.Runs.{IsRunOf, HasLearnedAll, IsQuietOrSettled, EndCause, HoldParts};
ghost use Rattle.gp_cluster.specs.Seated.{lent_end};

use crate::closing::Closed;
use crate::policy::RoundPolicy;
use crate::seated::{know, run_logs, take_room};
use gp_cell::PaxosRules;
use gp_edge::{Disk, Gate};
use gp_ending::RunEnd;
use gp_node::{Cell, Posted};
use gp_phase::{Beside, Trio};
use gp_round::Config;
use gp_seats::OfferList;
use gp_shelf::{LendFault, Lent, Unlent, give_back, lend};
use gp_vlog::{LEAST_LIMIT, MOST_LIMIT};
use gp_wire::Wire;
use std::alloc::Global;
use std::sync::Wait;
use std::thread::Threads;

/// How a run of nodes ended.
#[derive(Drop)]
pub struct NodesRun<D: Disk> {
    pub end: RunEnd,
    /// What the nodes posted. `None` if the run ended before its wire was closed, because memory
    /// ran out or a disk failed.
    pub posted: Option<Posted>,
    /// The disks, in the order in which they were given.
    pub disks: Vec<D>,
}

// How a run ends if its logs cannot be made.
fn end_of(why: LendFault) -> RunEnd
    ensures { result ≡ lent_end why }
{
    match why {
        LendFault::Disk => RunEnd::Disk,
        LendFault::NoMemory => RunEnd::NoMemory,
    }
}

/// Runs the nodes of a configuration in threads, until every learner holds every command that was
/// offered. No clause speaks of threads; a test shows that two nodes step at the same time.
///
/// New logs with this limit, in bytes, are made on the disks of the acceptors and the coordinators;
/// the other disks stay as they are. The proposers post the offers. In the work phases that follow,
/// all other nodes work until nothing is left to do. The policy says which rounds begin, and
/// whether there are work phases before the offers too. If a learner then lacks an offered command,
/// the run is settled. `RunEnd` says why a run ends. There must be twelve disks, and `limit` must
/// be from `LEAST_LIMIT` to `MOST_LIMIT`. The offers must be fewer than 2^32, each at one of the
/// eight proposers.
pub fn run_nodes<
    D: Disk + Send,
    A: Beside<Wire<PaxosRules>, Cell<D>> + Send,
    B: Beside<Wire<PaxosRules>, Cell<D>> + Send,
    W: Threads + Wait + Sync,
    G: Gate + Sync,
>(
    rt: &W,
    alloc: Global,
    config: Config,
    policy: RoundPolicy,
    limit: u32,
    offers: &OfferList,
    beside: &mut Trio<A, B>,
    disks: Vec<D>,
    gate: &G,
) -> NodesRun<D>
    requires twelve { length disks.items ≡ 12 }
    requires low { LEAST_LIMIT ≤ limit }
    requires high { limit ≤ MOST_LIMIT }
    requires few { length offers.now < 2 ^ 32 }
    requires known { All IsKnown offers.now }
    ensures posted { IfSome result.posted (IsRunOf policy config offers.now) }
    ensures none { result.posted ≡ None → (result.end ≡ RunEnd.NoMemory) ⊎ (result.end ≡ RunEnd.Disk) }
    ensures learned { result.end ≡ RunEnd.Learned → IfSome result.posted (HasLearnedAll config offers.now) }
    ensures quiet { result.end ≡ RunEnd.Learned → ¬ SomeRose D.faults disks.items result.disks.items → IfSome result.posted (IsQuietOrSettled policy config offers.now) }
    ensures cause { EndCause D.content D.faults config limit disks.items result.disks.items result.posted result.end }
    ensures parts { result.end ≡ RunEnd.Learned → IfSome result.posted (λ list. HoldParts D.content config limit (newest_first list) result.disks.items) }
    ensures others { KeepsOthers config disks.items result.disks.items }
    ensures none_fell { NoneFell D.faults disks.items result.disks.items }
    ensures topics { topics A.topic B.topic beside.new ≡ topics A.topic B.topic beside.old }
{
    know(config);
    let Ok(room) = take_room(alloc) else {
        return NodesRun {
            end: RunEnd::NoMemory,
            posted: None,
            disks,
        };
    };
    match lend(alloc, config, limit, disks) {
        Ok(Lent { logs, shelf }) => {
            let Closed { end, posted, logs } = run_logs(
                rt, alloc, config, policy, logs, offers, beside, room, gate,
            );
            let disks = give_back(shelf, logs);
            NodesRun { end, posted, disks }
        }
        Err(Unlent { why, disks }) => NodesRun {
            end: end_of(why),
            posted: None,
            disks,
        },
    }
}
