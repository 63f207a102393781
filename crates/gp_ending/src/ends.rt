//! Why a run of nodes ended.
ghost use Rattle.std.specs.Prelude.{◌≡◌, map};
ghost use Rattle.gp_ending.specs.Ends.{end_of, rank, sooner, deciding, fault_in};

use gp_node::JobFault;
use gp_work::Job;

/// Why a run of nodes ended.
#[derive(Clone, Copy, Debug, PartialEq, Eq)]
pub enum RunEnd {
    /// Every learner holds every command that was offered.
    Learned,
    /// Memory ran out.
    NoMemory,
    /// A disk failed.
    Disk,
    /// The log of a node has no room for its durable part: the size of a log with no other entry
    /// and the need of the part, both in bytes, together exceed the limit.
    Full { size: u64, need: u64 },
    /// After a fault of its disk, the bytes of a node's disk break the format of a log at this
    /// place.
    NotLog { at: u64 },
    /// After a fault of its disk, the log of a node has neither the durable part before its last
    /// move nor the one after it, or it has entries of version 1 of the format.
    Changed,
}

// How a run ends if a job has this fault and no other fault goes first.
fn end_of(fault: &JobFault) -> RunEnd
    ensures { result ≡ end_of fault.now }
{
    match fault {
        JobFault::NoMemory => RunEnd::NoMemory,
        JobFault::Disk => RunEnd::Disk,
        JobFault::Full { size, need } => RunEnd::Full {
            size: *size,
            need: *need,
        },
        JobFault::NotLog { at } => RunEnd::NotLog { at: *at },
        JobFault::Changed { .. } => RunEnd::Changed,
    }
}

// Of several ends, the one with the lowest rank decides.
fn rank(end: RunEnd) -> u8
    ensures { result ≡ rank end }
{
    match end {
        RunEnd::NoMemory => 0,
        RunEnd::Disk => 1,
        RunEnd::Full { .. } => 2,
        RunEnd::NotLog { .. } => 3,
        RunEnd::Changed => 4,
        RunEnd::Learned => 5,
    }
}

// The one with the lower rank, and the first if both have the same rank.
fn sooner(first: RunEnd, second: Option<RunEnd>) -> RunEnd
    ensures { result ≡ sooner first second }
{
    match second {
        Some(second) if rank(second) < rank(first) => second,
        _ => first,
    }
}

/// How a run ends if these jobs have faults. Out of memory goes first, then a failed disk, a full
/// log, bytes that are no log, and a log that has changed. Of two faults of the same kind, that of
/// the first job decides. `None` exactly if no job has a fault.
pub(crate) fn deciding<P>(jobs: &[Job<P>]) -> Option<RunEnd>
    ensures { result ≡ deciding (map fault_in jobs.now) }
{
    let mut first = None;
    for i in (0..jobs.len()).rev() {
        if let Some(fault) = &jobs[i].fault {
            first = Some(sooner(end_of(fault), first));
        }
    }
    first
}
