//! The stage over cells.
ghost use Rattle.std.specs.Prelude.{◌≡◌, List, map, IfOk, IfErr};
ghost use Rattle.gp_msg.specs.declared.record.Record.{Record};
ghost use Rattle.gp_run.specs.Legal.{Legal};
ghost use Rattle.gp_run.specs.Runs.{newest_first};
ghost use Rattle.gp_wire.specs.Ends.{Closed};
ghost use Rattle.gp_cell.specs.Lawful.{paxos_legal};
ghost use Rattle.gp_cell.specs.Cells.{pass_of};
ghost use Rattle.gp_cell.specs.Endings.{AreAllCells};
ghost use Rattle.gp_stage.specs.Held.{AreAllNodes, AreCellsOf, AreReady, AreUp, whole_list};
ghost use Rattle.gp_stage.specs.Gathered.{AreBehind, AreSameBut};
ghost use Rattle.gp_stage.specs.Kept.{AreHeld};

use crate::gathering::gather;
use crate::looking::look_at_all;
use crate::tops::top_of_cells;
use gp_cell::{Cell, PaxosRules};
use gp_edge::{Disk, Gate};
use gp_msg::MsgKind;
use gp_round::Config;
use gp_wire::Wire;
use std::alloc::Global;
use std::marker::Model;
use std::sync::Wait;

/// A wire and its cells as a stage. The pass of one cell holds all nodes. So its list is the whole
/// list of the wire, and no step waits for a message. Before a step, the cell that makes it takes
/// over all nodes.
///
/// The stage is ready if all its cells are up. A step that fails may leave its cell down. A
/// contract sees the configuration, the wire with its nodes, the cells, the place of the cell whose
/// pass holds all nodes, and how often a log was full.
#[derive(Drop)]
pub struct CellStage<'a, D: Disk, G: Gate> {
    pub(crate) wire: Wire<PaxosRules>,
    pub(crate) gate: &'a G,
    pub(crate) config: Config,
    pub(crate) cells: Vec<Cell<D>>,
    // the place of the cell whose pass holds all nodes
    pub(crate) holder: usize,
    pub(crate) kinds: Vec<MsgKind>,
    // the greatest count of a round in a message, and in a message or a node
    pub(crate) sent_top: u32,
    pub(crate) top: u32,
    pub(crate) fulls: u64,
}

impl<'a, D: Disk, G: Gate> Model for CellStage<'a, D, G> {
    ghost use Rattle.gp_stage.specs.Held.{HeldCells};
    ghost use Rattle.gp_stage.specs.Codes.{held_code};
    ghost use Rattle.gp_stage.specs.Kept.{IsKept};

    ghost Value = { HeldCells D };

    ghost coded = { held_code D.code };

    ghost view = { λ s. record { config = s.config; wire = s.wire.id; nodes = s.wire.nodes; cells = s.cells.items; holder = s.holder; fulls = s.fulls } };

    ghost invariant = { λ s. IsKept s.wire s.config s.cells.items s.holder s.kinds.items s.sent_top s.top };
}

/// Memory ran out, and no stage was made. The wire and the cells are returned. The passes of the
/// cells may already have met.
#[derive(Drop)]
pub struct Unstaged<D: Disk> {
    pub wire: Wire<PaxosRules>,
    pub cells: Vec<Cell<D>>,
}

impl<'a, D: Disk, G: Gate> CellStage<'a, D, G> {
    /// Makes a stage of the cells of all nodes of a wire, which are the nodes of the configuration.
    /// The first cell meets all others and looks at the messages. The list of the wire is then a
    /// legal run. For each cell, it begins with what that cell had seen, and what follows is of
    /// other nodes.
    ///
    /// If memory runs out, the wire is returned unchanged. The cells are returned too, and only
    /// their passes may have changed.
    pub fn new<W: Wait>(
        alloc: Global,
        rt: &W,
        config: Config,
        wire: Wire<PaxosRules>,
        gate: &'a G,
        cells: Vec<Cell<D>>,
    ) -> Result<Self, Unstaged<D>>
        requires config { config ≡ wire.rules.config }
        requires nodes { AreAllNodes config wire.nodes }
        requires ready { AreReady wire cells.items }
        requires all { AreCellsOf wire.nodes cells.items }
        ensures about { IfOk result (λ s. (s.config ≡ config) × (s.wire ≡ wire.id)
            × (s.nodes ≡ wire.nodes) × (s.fulls ≡ 0)) }
        ensures cells { IfOk result (λ s. AreSameBut cells.items s.cells) }
        ensures up { IfOk result (λ s. AreUp s.cells) }
        ensures legal { IfOk result (λ s. Legal config (newest_first (whole_list s))) }
        ensures lists { IfOk result (λ s. AreBehind cells.items (whole_list s)) }
        ensures back { IfErr result (λ u. (u.wire ≡ wire)
            × AreSameBut cells.items u.cells.items × AreAllCells wire u.cells.items) }
    {
        let mut cells = cells;
        if cells.is_empty() {
            return Err(Unstaged { wire, cells });
        }
        gather(&wire, &mut cells);
        let Ok(seen) = look_at_all(alloc, rt, &wire, &mut cells[0]) else {
            return Err(Unstaged { wire, cells });
        };
        let top = seen.top.max(top_of_cells(&cells));
        Ok(CellStage {
            wire,
            gate,
            config,
            cells,
            holder: 0,
            kinds: seen.kinds,
            sent_top: seen.top,
            top,
            fulls: 0,
        })
    }

    /// The wire and the cells, in their order. If the passes of these cells close the wire, the
    /// list that this gives is the run of the stage.
    pub fn into_parts(self) -> (Wire<PaxosRules>, Vec<Cell<D>>)
        ensures wire { (result.0.id ≡ self.entry.wire) × (result.0.nodes ≡ self.entry.nodes)
            × (result.0.rules.config ≡ self.entry.config) }
        ensures cells { result.1.items ≡ self.entry.cells }
        ensures all { AreAllCells result.0 result.1.items }
        ensures held { AreHeld result.0 self.entry.config result.1.items self.entry.holder }
        ensures closed { (out : List Record) → Closed (paxos_legal result.0.rules.config) result.0.nodes (map pass_of result.1.items) out
            → out ≡ whole_list self.entry }
    {
        let CellStage { wire, cells, .. } = self;
        (wire, cells)
    }
}
