//! Disks that are lent and given back.
ghost use Rattle.std.specs.Prelude.{◌≡◌, IfOk, length};
ghost use Rattle.gp_shelf.specs.Places.{logged};

use crate::lent_disks::{Holds, disks_with, hold, remade};
use crate::outcome::holds;
use Holds::{Log as L, Own};
use gp_edge::MemDisk;
use gp_round::Config;
use gp_shelf::{LendFault, Lent, give_back, lend, place_of};
use gp_vlog::Log;
use std::alloc::Global;
use std::test::Fail;

// What the twelve disks hold after five were lent as logs of ascending limits.
static FIVE_LENT: [Holds; 12] = [
    L(64),
    L(65),
    L(66),
    Own,
    Own,
    Own,
    Own,
    L(67),
    L(68),
    Own,
    Own,
    Own,
];

static ALL_LENT: [Holds; 12] = [
    L(64),
    L(65),
    L(66),
    L(67),
    L(68),
    L(69),
    L(70),
    L(71),
    L(72),
    L(73),
    L(74),
    L(75),
];

// After three were made to logs, and the next one failed.
static THREE_MADE: [Holds; 12] = [
    L(80),
    L(80),
    L(80),
    Own,
    Own,
    Own,
    Own,
    Own,
    Own,
    Own,
    Own,
    Own,
];

// Whether all logs are ready and have no entries.
fn are_new(logs: &[Log<MemDisk>]) -> bool {
    logs.iter().all(|log| log.is_ready() && log.count() == 0 && log.size() == 17)
}

// The disks after they were lent, made to logs of ascending limits, and given back.
fn lent_and_back(alloc: Global, config: Config) -> Result<Vec<MemDisk>, Fail> {
    let disks = disks_with(alloc, 0, &[])?;
    let Ok(Lent { logs, shelf }) = lend(alloc, config, 64, disks) else {
        return Err(Fail::from("not lent"));
    };
    let logs = made_anew(alloc, config, logs)?;
    Ok(give_back(shelf, logs))
}

// The logs of the nodes, made again, if they were new.
fn made_anew(
    alloc: Global,
    config: Config,
    logs: Vec<Log<MemDisk>>,
) -> Result<Vec<Log<MemDisk>>, Fail>
    ensures { IfOk result (λ made. length made.items ≡ logged config) }
{
    if !are_new(&logs) {
        return Err(Fail::from("not new"));
    }
    let made = remade(alloc, logs)?;
    if made.len() != (config.acceptors() + config.coordinators()) as usize {
        return Err(Fail::from("another number of logs"));
    }
    Ok(made)
}

#[test]
fn disks_come_back_in_order(rt: HostRuntime) -> Result<(), Fail> {
    holds(
        &rt,
        come_back(rt.alloc(), Config::new(3, 2, 1)?, &FIVE_LENT),
    )
}

fn come_back(alloc: Global, config: Config, table: &[Holds]) -> Result<bool, Fail> {
    let disks = lent_and_back(alloc, config)?;
    Ok(hold(&disks, table))
}

#[test]
fn the_greatest_configuration_is_lent_all_disks(rt: HostRuntime) -> Result<(), Fail> {
    holds(&rt, come_back(rt.alloc(), Config::new(7, 5, 1)?, &ALL_LENT))
}

#[test]
fn all_disks_come_back_in_order_if_one_fails(rt: HostRuntime) -> Result<(), Fail> {
    holds(&rt, come_back_unlent(rt.alloc(), Config::new(3, 2, 1)?))
}

fn come_back_unlent(alloc: Global, config: Config) -> Result<bool, Fail> {
    let disks = disks_with(alloc, 7, &[0])?;
    match lend(alloc, config, 80, disks) {
        Ok(_) => Ok(false),
        Err(unlent) => Ok(unlent.why == LendFault::Disk && hold(&unlent.disks, &THREE_MADE)),
    }
}

#[test]
fn a_disk_of_no_node_is_not_used(rt: HostRuntime) -> Result<(), Fail> {
    assert!(rt; is_lent_to(rt.alloc(), Config::new(6, 5, 1)?)?);
    assert!(rt; !is_lent_to(rt.alloc(), Config::new(7, 5, 1)?)?);
    Ok(())
}

// Whether disks of which the seventh fails are lent.
fn is_lent_to(alloc: Global, config: Config) -> Result<bool, Fail> {
    let disks = disks_with(alloc, 6, &[0])?;
    Ok(lend(alloc, config, 64, disks).is_ok())
}

#[test]
fn coordinators_have_the_disks_from_the_seventh_on(rt: HostRuntime) -> Result<(), Fail> {
    assert!(rt; are_places(Config::new(4, 3, 1)?, &[0, 1, 2, 3, 7, 8, 9]));
    Ok(())
}

// Whether these are the places of the disks of all nodes with a log.
fn are_places(config: Config, places: &[usize]) -> bool {
    for node in 0..config.acceptors() + config.coordinators() {
        if places.get(node as usize) != Some(&place_of(&config, node)) {
            return false;
        }
    }
    places.len() == (config.acceptors() + config.coordinators()) as usize
}
