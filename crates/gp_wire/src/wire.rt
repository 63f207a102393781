//! The shared list.
use crate::indexed::IndexedRecords;
use crate::key::{WireKey, WireRule};
use crate::rules::Rules;
use crate::view::View;
use atomic_table::Table;
use std::alloc::Global;
use std::marker::Model;

/// A list of records that nodes share. Each record is legal after those before it, under the rules
/// with which the wire was made, and no call changes or removes a record. Threads may share a wire.
/// A contract sees which wire it is, its nodes and its rules. It sees the list through passes, and
/// when the wire is closed.
#[derive(Drop)]
pub struct Wire<R: Rules> {
    pub(crate) table: Table<Option<IndexedRecords>, View, WireKey<R>, WireRule, Global>,
}

impl<R: Rules> Model for Wire<R> {
    ghost use Rattle.std.specs.Prelude.{◌≡◌, ◌<◌, length};
    ghost use Rattle.gp_wire.specs.Known.{WireState};

    ghost Value = { WireState R };

    ghost view = { λ w. record { id = w.table.shared.table_id; nodes = w.table.shared.key.nodes; rules = w.table.shared.key.rules } };

    ghost invariant = { λ w. (w.table.shared.table_id.words ≡ 3) × (w.table.shared.table_id.slots ≡ 1) × (0 < length w.table.shared.key.nodes) };
}
