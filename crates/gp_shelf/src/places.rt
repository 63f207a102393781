//! Which disk belongs to which node.
ghost use Rattle.std.specs.Prelude.{◌≡◌, ◌+◌, ◌<◌};
ghost use Rattle.gp_shelf.specs.Places.{place_at, logged};

use gp_round::Config;

/// How many disks a program has: one for each acceptor, 0 to 6, and one for each coordinator, 7 to
/// 11, of the greatest configuration.
pub const DISKS: u32 = 12;

/// The place of the disk of coordinator 0. The disks of acceptors come before it.
pub(crate) const FIRST_COORDINATOR: usize = 7;

/// The place, from 0, of the disk of a node with a log. Such nodes are counted from 0, the
/// acceptors in the order of their numbers before the coordinators in theirs. Acceptor i has disk
/// i, and coordinator j has disk 7 + j.
pub fn place_of(config: &Config, node: u32) -> usize
    requires { node < logged config.now }
    ensures { result ≡ place_at config.now node }
{
    let acceptors = config.acceptors();
    if node < acceptors {
        node as usize
    } else {
        FIRST_COORDINATOR + (node - acceptors) as usize
    }
}
