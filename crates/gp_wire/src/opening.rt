//! A new wire.
ghost use Rattle.std.specs.Prelude.{◌≡◌, ◌<◌, [], ◌∷◌, length, IfOk};
ghost use Rattle.gp_wire.specs.Lists.{IsDistinct};
ghost use Rattle.gp_wire.specs.Fresh.{AreFresh};
ghost use Rattle.gp_wire.specs.Rule.{fresh};

use crate::indexed::IndexedRecords;
use crate::key::{Nodes, WireKey};
use crate::pass::{Pass, WireSeat};
use crate::plays::OneNode;
use crate::rules::Rules;
use crate::wire::Wire;
use atomic_table::Table;
use gp_command::NoMemory;
use gp_msg::Node;
use std::alloc::Global;

// The slot of a new wire, with an empty list.
fn one_slot(alloc: Global) -> Result<Vec<Option<IndexedRecords>>, NoMemory>
    ensures { IfOk result (λ v. v.items ≡ Some [] ∷ []) }
{
    let mut slots = Vec::new(alloc);
    match slots.push(Some(IndexedRecords::new(alloc))) {
        Ok(()) => Ok(slots),
        Err(_) => Err(NoMemory),
    }
}

impl<R: Rules> Wire<R> {
    /// A wire without records, and a pass for each node, in the order of `nodes`. Each pass holds
    /// its node and has seen nothing. `nodes` has at least one node, and none twice. `NoMemory` if
    /// memory runs out.
    pub fn new(alloc: Global, rules: R, nodes: &[Node]) -> Result<(Wire<R>, Vec<Pass>), NoMemory>
        requires some { 0 < length nodes.now }
        requires distinct { IsDistinct nodes.now }
        ensures about { IfOk result (λ w. (w.0.rules ≡ rules) × (w.0.nodes ≡ nodes.now)) }
        ensures passes { IfOk result (λ w. AreFresh w.0.id nodes.now nodes.now w.1.items) }
    {
        let (wire, first) = Wire::empty(alloc, rules, nodes)?;
        let passes = wire.passes(alloc, nodes, first)?;
        Ok((wire, passes))
    }

    // A wire without records, and a seat that holds all its nodes. `NoMemory` if memory runs out.
    fn empty(alloc: Global, rules: R, nodes: &[Node]) -> Result<(Wire<R>, WireSeat), NoMemory>
        requires some { 0 < length nodes.now }
        ensures about { IfOk result (λ w. (w.0.rules ≡ rules) × (w.0.nodes ≡ nodes.now)) }
        ensures own { IfOk result (λ w. w.1.table_id ≡ w.0.id) }
        ensures first { IfOk result (λ w. w.1.me ≡ (fresh nodes.now nodes.now, [])) }
    {
        let Ok(copy) = nodes.to_vec(alloc) else {
            return Err(NoMemory);
        };
        let key = WireKey {
            rules,
            nodes: Nodes { nodes: copy },
        };
        let slots = one_slot(alloc)?;
        match Table::new(alloc, &[0, 0, 0], slots, &key) {
            Ok((table, first)) => Ok((Wire { table }, first)),
            Err(_) => Err(NoMemory),
        }
    }

    // A pass for each node. The seat holds all nodes at first. `NoMemory` if memory runs out.
    fn passes(
        &self,
        alloc: Global,
        nodes: &[Node],
        mut first: WireSeat,
    ) -> Result<Vec<Pass>, NoMemory>
        requires own { first.table_id ≡ self.now.id }
        requires first { first.me ≡ (fresh nodes.now nodes.now, []) }
        requires distinct { IsDistinct nodes.now }
        ensures { IfOk result (λ passes. AreFresh self.now.id nodes.now nodes.now passes.items) }
    {
        let mut passes = Vec::new(alloc);
        if passes.reserve(nodes.len()).is_err() {
            return Err(NoMemory);
        }
        for node in nodes {
            let seat = self.table.shared.split_seat::<OneNode>(&mut first);
            passes.push_reserved(Pass {
                node: *node,
                seat,
                count: 0,
            });
        }
        Ok(passes)
    }
}
