//! What the table of a wire is made with, and the rule that its steps keep.
ghost use Rattle.gp_wire.specs.Rule.{Kept, newcomer};

use crate::indexed::IndexedRecords;
use crate::rules::Rules;
use crate::view::View;
use atomic_table::TableRule;
use gp_msg::Node;
use std::marker::Model;

/// The nodes of a wire. A contract sees them as a list.
#[derive(Drop)]
pub struct Nodes {
    pub(crate) nodes: Vec<Node>,
}

impl Model for Nodes {
    ghost use Rattle.std.specs.Prelude.{List};
    ghost use Rattle.gp_msg.specs.declared.node.Node.{Node};

    ghost Value = { List Node };

    ghost view = { λ s. s.nodes.items };
}

/// What a table is made with. It never changes.
#[derive(Drop)]
pub struct WireKey<R: Rules> {
    pub rules: R,
    pub nodes: Nodes,
}

/// The rule that holds between any two steps, about the words, the list in the slot, and what each
/// seat knows.
pub struct WireRule;

impl<R: Rules> TableRule<Option<IndexedRecords>, View, WireKey<R>> for WireRule {
    ghost holds = { λ key. Kept (R.legal key.rules) key.nodes };

    ghost first = { λ key. newcomer key.nodes };
}
