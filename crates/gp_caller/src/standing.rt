//! The epoch and the round of a coordinator.
ghost use Rattle.std.specs.Prelude.{◌≡◌, None};
ghost use Rattle.gp_msg.specs.declared.node.Node.TheVariants.{Coordinator};
ghost use Rattle.gp_wire.specs.Known.{records};
ghost use Rattle.gp_caller.specs.Standing.{StandsIn};

use gp_cell::Cell;
use gp_edge::Disk;
use gp_msg::Durable;
use gp_round::Round;

/// The epoch and the round of coordinator `number`, which is up.
pub fn standing<D: Disk>(cell: &Cell<D>, number: u32) -> (u32, Round)
    requires node { cell.now.node ≡ Coordinator number }
    requires up { cell.now.down ≡ None }
    ensures { StandsIn cell.now.config cell.now.node (records cell.now.pass) result.0 result.1 }
{
    let _up = cell.is_down();
    match cell.durable() {
        None => (0, Round::zero()),
        Some(Durable::Coordinator { epoch, round }) => (*epoch, *round),
        Some(Durable::Acceptor { .. }) => unreachable!(),
    }
}
