//! Moving disks from list to list.
ghost use Rattle.std.specs.Prelude.{◌≡◌, ◌+◌, ◌-◌, ◌<◌, ◌≤◌, ◌++◌, ◌∷◌, [], length, map, take, drop, vec_len, vec_capacity};
ghost use Rattle.gp_shelf.specs.Places.{logged};
ghost use Rattle.gp_shelf.specs.Lists.{lent_of, unlent_of, shelved, disk_in, HasRoomFor};

use crate::places::FIRST_COORDINATOR;
use gp_edge::Disk;
use gp_round::Config;
use gp_vlog::Log;

// Moves the first disks of one list to the end of another.
fn move_first<D>(from: &mut Vec<D>, count: usize, to: &mut Vec<D>)
    requires enough { count ≤ length from.old.items }
    requires room { vec_len to.old + count ≤ vec_capacity to.old }
    ensures moved { to.new.items ≡ to.old.items ++ take count from.old.items }
    ensures left { from.new.items ≡ drop count from.old.items }
    ensures capacity { vec_capacity to.new ≡ vec_capacity to.old }
    ensures from_capacity { vec_capacity from.new ≡ vec_capacity from.old }
{
    for _ in 0..count {
        to.push_reserved(from.remove(0));
    }
}

/// Divides the disks into those of the nodes with a log, in the order of these nodes, and the
/// others.
pub(crate) fn divide<D>(config: &Config, disks: &mut Vec<D>, lent: &mut Vec<D>, unlent: &mut Vec<D>)
    requires twelve { length disks.old.items ≡ 12 }
    requires lent { HasRoomFor (logged config.now) lent.old }
    requires unlent { HasRoomFor (12 - logged config.now) unlent.old }
    ensures lent { lent.new.items ≡ lent_of config.now disks.old.items }
    ensures unlent { unlent.new.items ≡ unlent_of config.now disks.old.items }
    ensures none_left { disks.new.items ≡ [] }
    ensures lent_capacity { vec_capacity lent.new ≡ vec_capacity lent.old }
    ensures capacity { vec_capacity disks.new ≡ vec_capacity disks.old }
{
    let acceptors = config.acceptors() as usize;
    let coordinators = config.coordinators() as usize;
    move_first(disks, acceptors, lent);
    move_first(disks, FIRST_COORDINATOR - acceptors, unlent);
    move_first(disks, coordinators, lent);
    let rest = disks.len();
    move_first(disks, rest, unlent);
}

/// Puts all disks back in order: those of the nodes with a log in the places of these nodes, and
/// the others in the remaining places.
pub(crate) fn shelve<D: Drop>(config: &Config, lent: Vec<D>, unlent: Vec<D>, room: Vec<D>) -> Vec<D>
    requires lent { length lent.items ≡ logged config.now }
    requires unlent { length unlent.items + logged config.now ≡ 12 }
    requires room { HasRoomFor 12 room }
    ensures { result.items ≡ shelved config.now unlent.items lent.items }
{
    let (mut lent, mut unlent, mut disks) = (lent, unlent, room);
    let acceptors = config.acceptors() as usize;
    let coordinators = config.coordinators() as usize;
    move_first(&mut lent, acceptors, &mut disks);
    move_first(&mut unlent, FIRST_COORDINATOR - acceptors, &mut disks);
    move_first(&mut lent, coordinators, &mut disks);
    let rest = unlent.len();
    move_first(&mut unlent, rest, &mut disks);
    disks
}

/// Puts a disk before those of a list.
pub(crate) fn put_first<D: Drop>(disks: &mut Vec<D>, disk: D)
    requires room { vec_len disks.old < vec_capacity disks.old }
    ensures put { disks.new.items ≡ disk ∷ disks.old.items }
    ensures capacity { vec_capacity disks.new ≡ vec_capacity disks.old }
{
    match disks.insert(0, disk) {
        Ok(()) => {}
        Err(_) => unreachable!(),
    }
}

/// Puts the disks of logs, in the order of these, before those of a list.
pub(crate) fn unmake<D: Disk>(logs: Vec<Log<D>>, disks: &mut Vec<D>)
    requires room { length logs.items + vec_len disks.old ≤ vec_capacity disks.old }
    ensures disks { disks.new.items ≡ map disk_in logs.items ++ disks.old.items }
    ensures capacity { vec_capacity disks.new ≡ vec_capacity disks.old }
{
    let mut left = logs;
    while let Some(log) = left.pop() {
        put_first(disks, log.into_disk());
    }
}
