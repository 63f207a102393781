//! The closing of a wire, and the logs of its nodes.
ghost use Rattle.std.specs.Prelude.{◌≡◌, true, None, length, IfSome};
ghost use Rattle.gp_ending.specs.declared.ends.RunEnd.TheVariants as RunEnd;
ghost use Rattle.std.specs.List.{All};
ghost use Rattle.gp_vlog.specs.Logs.{IsReady};
ghost use Rattle.gp_cell.specs.Endings.{AreAllCells};
ghost use Rattle.gp_shelf.specs.Lists.{HasRoomFor};
ghost use Rattle.gp_cluster.specs.Cells.{IsKnownCell, logs_of, present};
ghost use Rattle.gp_cluster.specs.Closing.{IsClosedBy, EndsAs};

use gp_cell::PaxosRules;
use gp_edge::Disk;
use gp_ending::RunEnd;
use gp_node::{Cell, Finished, Posted, Unfinished, finish};
use gp_vlog::Log;
use gp_wire::Wire;
use std::alloc::Global;

/// What is left of a run: why it ended, the list that was posted if its wire was closed, and the
/// logs of its nodes, in their order.
#[derive(Drop)]
pub struct Closed<D: Disk> {
    pub end: RunEnd,
    pub posted: Option<Posted>,
    pub logs: Vec<Log<D>>,
}

// What is known of a cell.
fn know_cell<D: Disk>(cell: &Cell<D>)
    ensures { IsKnownCell cell.now }
{
    let _down = cell.is_down();
}

// What is known of each cell.
fn know<D: Disk>(cells: &[Cell<D>])
    ensures { All IsKnownCell cells.now }
{
    for cell in cells {
        know_cell(cell);
    }
}

// What is known of a log.
fn know_log<D: Disk>(log: &Log<D>)
    ensures { log.now.ready ≡ true → IsReady D.content D.image log.now }
{
    let _ready = log.is_ready();
}

// The logs that are there, in their order.
fn present<D: Disk>(logs: Vec<Option<Log<D>>>, room: Vec<Log<D>>) -> Vec<Log<D>>
    requires { HasRoomFor (length (present logs.items)) room }
    ensures logs { result.items ≡ present logs.items }
    ensures ready { All (λ log. log.ready ≡ true → IsReady D.content D.image log) result.items }
{
    let mut left = logs;
    left.reverse();
    let mut found = room;
    while let Some(log) = left.pop() {
        if let Some(log) = log {
            know_log(&log);
            found.push_reserved(log);
        }
    }
    found
}

// The logs of cells, in their order. `room` is empty and has room for them.
fn logs_of<D: Disk>(cells: Vec<Cell<D>>, room: Vec<Log<D>>) -> Vec<Log<D>>
    requires { HasRoomFor (length (logs_of cells.items)) room }
    ensures logs { result.items ≡ logs_of cells.items }
    ensures ready { All (λ log. log.ready ≡ true → IsReady D.content D.image log) result.items }
{
    let mut left = cells;
    left.reverse();
    let mut found = room;
    while let Some(cell) = left.pop() {
        let (pass, log) = cell.into_parts();
        drop(pass);
        if let Some(log) = log {
            know_log(&log);
            found.push_reserved(log);
        }
    }
    found
}

/// What is left of a run whose wire is not closed, since memory ran out: the logs of its cells, in
/// their order. `room` must be empty and have room for the logs.
pub fn leave<D: Disk>(cells: Vec<Cell<D>>, room: Vec<Log<D>>) -> Closed<D>
    requires { HasRoomFor (length (logs_of cells.items)) room }
    ensures posted { result.posted ≡ None }
    ensures end { result.end ≡ RunEnd.NoMemory }
    ensures logs { result.logs.items ≡ logs_of cells.items }
    ensures ready { All (λ log. log.ready ≡ true → IsReady D.content D.image log) result.logs.items }
    ensures known { All IsKnownCell cells.items }
{
    know(&cells);
    Closed {
        end: RunEnd::NoMemory,
        posted: None,
        logs: logs_of(cells, room),
    }
}

/// Closes a wire with the cells of all its nodes. `room` must be empty and have room for their
/// logs. If memory runs out, no list is returned and the end is `NoMemory`. The logs are returned
/// in either case.
pub(crate) fn close<D: Disk>(
    alloc: Global,
    wire: Wire<PaxosRules>,
    cells: Vec<Cell<D>>,
    room: Vec<Log<D>>,
    end: RunEnd,
) -> Closed<D>
    requires all { AreAllCells wire cells.items }
    requires room { HasRoomFor (length (logs_of cells.items)) room }
    ensures posted { IfSome result.posted (IsClosedBy wire cells.items) }
    ensures end { EndsAs end result.posted result.end }
    ensures logs { result.logs.items ≡ logs_of cells.items }
    ensures ready { All (λ log. log.ready ≡ true → IsReady D.content D.image log) result.logs.items }
    ensures known { All IsKnownCell cells.items }
{
    know(&cells);
    match finish(alloc, wire, cells) {
        Ok(Finished { posted, logs }) => Closed {
            end,
            posted: Some(posted),
            logs: present(logs, room),
        },
        Err(Unfinished { cells, .. }) => leave(cells, room),
    }
}
