//! Laws of cells. Each function does nothing, and its contract is the law.
ghost use Rattle.std.specs.Prelude.{◌≡◌, ◌++◌, ◌∷◌, [], List, None, Option, Some, map};
ghost use Rattle.gp_round.specs.Counts.{Counts};
ghost use Rattle.gp_msg.specs.declared.event.Event.{Event};
ghost use Rattle.gp_msg.specs.declared.node.Node.{Node};
ghost use Rattle.gp_msg.specs.declared.record.Record.{Record};
ghost use Rattle.gp_msg.specs.Nodes.{node_of};
ghost use Rattle.gp_run.specs.Runs.{newest_first};
ghost use Rattle.gp_vlog.specs.Logs.{LogState};
ghost use Rattle.gp_wire.specs.Own.{own};
ghost use Rattle.gp_cell.specs.Cores.{core_at, part_in};
ghost use Rattle.gp_cell.specs.Cells.{PostsOne};
ghost use Rattle.gp_node.specs.Changes.{HoldsLastParts};
ghost use Rattle.gp_cell.specs.Crashes.{Writes};

use gp_edge::Disk;

/// The log of a cell that was made by `new` and has made steps holds the last durable parts that
/// its node had, each after a record that changed the part. So the log holds no part twice in a
/// row. A new log holds them, and each step that returns `Ok` keeps this: its clauses `posted` and
/// `log` are the premises.
pub fn a_log_holds_each_part_once<D: Disk>()
    ensures new { (config : Counts) (n : Node) (seen : List Record) (log : LogState D) → own n seen ≡ [] → log.entries ≡ [] → HoldsLastParts config n seen (Some log) }
    ensures step { (config : Counts) (n : Node) (before after : List Record) (event : Event) (old new : Option (LogState D)) → node_of event ≡ n → PostsOne config n before after event
        → Writes old new (part_in (core_at config n (newest_first before))) (part_in (core_at config n (newest_first after))) → HoldsLastParts config n before old → HoldsLastParts config n after new }
{}
