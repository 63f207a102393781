//! Laws of the nodes of a configuration. The function does nothing, and its contract is the law.
ghost use Rattle.std.specs.Prelude.{◌≡◌, ◌↔◌, true};
ghost use Rattle.gp_round.specs.Counts.{Counts};
ghost use Rattle.gp_msg.specs.declared.node.Node.{Node};
ghost use Rattle.gp_msg.specs.Nodes.{is_present};
ghost use Rattle.gp_wire.specs.Lists.{Has, IsDistinct};
ghost use Rattle.gp_seats.specs.Nodes.{all_nodes};

/// The list has exactly the nodes of the configuration, without duplicates.
pub fn all_nodes_are_those_of_the_configuration()
    ensures distinct { (config : Counts) → IsDistinct (all_nodes config) }
    ensures present { (config : Counts) (n : Node) → Has n (all_nodes config) ↔ (is_present config n ≡ true) }
{}
