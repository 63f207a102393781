//! A shelf of disks: those of nodes are lent as logs, and come back.
ghost use Rattle.std.specs.Prelude.{◌≡◌, ◌≤◌, length, map, IfOk, IfErr};
ghost use Rattle.std.specs.List.{AllZip};
ghost use Rattle.gp_shelf.specs.Places.{logged};
ghost use Rattle.gp_shelf.specs.Lists.{lent_of, unlent_of, shelved, disk_in, KeepsOthers};
ghost use Rattle.gp_shelf.specs.Making.{IsMade, NoneFell, HasCause};

use crate::making::{LendFault, make};
use crate::moving::{divide, shelve, unmake};
use crate::places::DISKS;
use gp_edge::Disk;
use gp_round::Config;
use gp_vlog::{LEAST_LIMIT, Log, MOST_LIMIT};
use std::alloc::Global;
use std::marker::Model;

/// What remains of twelve disks after those of the nodes of a configuration were lent: the other
/// disks, and the room for all. A contract sees the configuration and the other disks.
#[derive(Drop)]
pub struct Shelf<D: Disk> {
    config: Config,
    // the disks of no node
    unlent: Vec<D>,
    // empty, with room for the disks of the logs
    lent: Vec<D>,
    // empty, with room for all disks
    all: Vec<D>,
}

impl<D: Disk> Model for Shelf<D> {
    ghost use Rattle.gp_shelf.specs.Shelves.{ShelfState, IsWhole};

    ghost Value = { ShelfState D };

    ghost view = { λ s. record { config = s.config; unlent = s.unlent.items } };

    ghost invariant = { λ s. IsWhole s.config s.unlent.items s.lent s.all };
}

/// The logs of the nodes of a run, and the rest of the disks.
#[derive(Drop)]
pub struct Lent<D: Disk> {
    /// The logs of the acceptors and then those of the coordinators, in the order of their numbers.
    pub logs: Vec<Log<D>>,
    pub shelf: Shelf<D>,
}

/// Why disks were not lent, with all disks in order.
#[derive(Drop)]
pub struct Unlent<D: Disk> {
    pub why: LendFault,
    pub disks: Vec<D>,
}

/// Makes a new log of this limit, in bytes, on the disk of each acceptor and each coordinator
/// (`place_of`). What these disks held may be lost, even if the call is refused. The other disks
/// are unchanged. There must be twelve disks, and `limit` must be from `LEAST_LIMIT` to
/// `MOST_LIMIT`.
///
/// It returns `Disk` only if the number of faults of a disk has increased or is 2^64 - 1, and
/// `NoMemory` if memory runs out. After `NoMemory` no number has increased.
pub fn lend<D: Disk>(
    alloc: Global,
    config: Config,
    limit: u32,
    disks: Vec<D>,
) -> Result<Lent<D>, Unlent<D>>
    requires twelve { length disks.items ≡ 12 }
    requires low { LEAST_LIMIT ≤ limit }
    requires high { limit ≤ MOST_LIMIT }
    ensures logs { IfOk result (λ l. AllZip (IsMade D.content D.image D.faults limit) (lent_of config disks.items) l.logs.items) }
    ensures count { IfOk result (λ l. length l.logs.items ≡ logged config) }
    ensures unlent { IfOk result (λ l. l.shelf.unlent ≡ unlent_of config disks.items) }
    ensures config { IfOk result (λ l. l.shelf.config ≡ config) }
    ensures others { IfErr result (λ u. KeepsOthers config disks.items u.disks.items) }
    ensures none_fell { IfErr result (λ u. NoneFell D.faults disks.items u.disks.items) }
    ensures cause { IfErr result (λ u. HasCause D.faults disks.items u.disks.items u.why) }
{
    let nodes = (config.acceptors() + config.coordinators()) as usize;
    let mut logs = Vec::new(alloc);
    let mut lent = Vec::new(alloc);
    let mut unlent = Vec::new(alloc);
    if logs.reserve(nodes).is_err()
        || lent.reserve(nodes).is_err()
        || unlent.reserve(DISKS as usize - nodes).is_err()
    {
        let why = LendFault::NoMemory;
        return Err(Unlent { why, disks });
    }
    let mut all = disks;
    divide(&config, &mut all, &mut lent, &mut unlent);
    match make(alloc, limit, &mut lent, logs) {
        Ok(logs) => {
            let shelf = Shelf {
                config,
                unlent,
                lent,
                all,
            };
            Ok(Lent { logs, shelf })
        }
        Err(why) => {
            let disks = shelve(&config, lent, unlent, all);
            Err(Unlent { why, disks })
        }
    }
}

/// Puts the disks of logs back at the places of their nodes, the disk of the k-th log at that of
/// node k. The other disks are at their own places.
pub fn give_back<D: Disk>(shelf: Shelf<D>, logs: Vec<Log<D>>) -> Vec<D>
    requires as_many { length logs.items ≡ logged shelf.config }
    ensures disks { result.items ≡ shelved shelf.config shelf.unlent (map disk_in logs.items) }
    ensures twelve { length result.items ≡ 12 }
{
    let Shelf {
        config,
        unlent,
        mut lent,
        all,
    } = shelf;
    unmake(logs, &mut lent);
    shelve(&config, lent, unlent, all)
}
