//! How a run of the program ended, and its records.
ghost use Rattle.std.specs.Prelude.{◌≡◌};
ghost use Rattle.gp_cli.specs.Trails.{records_in, trail_of};

use gp_edge::Disk;
use gp_msg::{Record, Records};
use gp_node::Posted;
use std::alloc::Global;

/// How a run of the program ended.
#[derive(Drop)]
pub struct Ran<D: Disk> {
    /// The exit status: 0 if the subcommand ran to its end and all was written, 1 if memory ran
    /// out, 2 if the words name no subcommand, 3 if a line of the input is refused, 4 if the source
    /// failed, 5 if the sink failed, 6 if a disk failed, 7 if a log has no room for an entry, 8 if
    /// the bytes of a disk are not a log, or not the log that was written there.
    pub status: u8,
    /// The records of the run.
    pub trail: Trail,
    /// The disks, in the order in which they were given.
    pub disks: Vec<D>,
}

/// The records of a run of the program.
#[derive(Drop)]
pub enum Trail {
    /// Those of a run in one thread. There are none if it ended before any event, or, if nodes ran
    /// in threads, before their list was closed.
    Folded(Records),
    /// Those that nodes in threads posted.
    Posted(Posted),
}

impl Trail {
    /// The records, the oldest first.
    pub fn records(&self) -> &[Record]
        ensures { result.now ≡ records_in self.now }
    {
        match self {
            Trail::Folded(records) => records.as_slice(),
            Trail::Posted(posted) => posted.records(),
        }
    }

    // What nodes posted, if their wire was closed.
    pub(crate) fn of(alloc: Global, posted: Option<Posted>) -> Trail
        ensures { result ≡ trail_of posted }
    {
        match posted {
            Some(posted) => Trail::Posted(posted),
            None => Trail::Folded(Records::new(alloc)),
        }
    }
}
