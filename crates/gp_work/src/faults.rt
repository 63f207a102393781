//! Why a step or a recovery was refused, and why a job ended early.
use gp_msg::Durable;

/// Why a step was refused. It posted nothing.
#[derive(Drop, Debug)]
pub enum StepFault {
    /// The message that it takes was not sent yet.
    Waiting,
    /// Memory ran out.
    NoMemory,
    /// The disk failed, and the node is down.
    Disk,
    /// The log has no room for the durable part, and the node is down: `size`, the size of a log
    /// with no other entry, and `need`, the need of the part, both in bytes, together exceed the
    /// limit.
    Full { size: u64, need: u64 },
}

/// Why a node did not recover. It is still down, and posted nothing.
#[derive(Drop, Debug)]
pub enum RiseFault {
    /// Memory ran out.
    NoMemory,
    /// The disk failed.
    Disk,
    /// The bytes of the disk break the format of a log at this place.
    NotLog { at: u64 },
    /// The log has neither the durable part before the move in which the node went down nor the one
    /// after it, or it has entries of version 1 of the format. `found` is its last entry, if it has
    /// one.
    Changed { found: Option<Durable> },
}

/// Why a job ended early: the fault of the step or of the recovery that ended it.
#[derive(Drop, Debug)]
pub enum JobFault {
    /// Memory ran out.
    NoMemory,
    /// The disk failed.
    Disk,
    /// The log has no room for the durable part: `size`, the size of a log with no other entry, and
    /// `need`, the need of the part, both in bytes, together exceed the limit.
    Full { size: u64, need: u64 },
    /// The bytes of the disk break the format of a log at this place, counted from 0.
    NotLog { at: u64 },
    /// The log has neither the durable part before the move in which the node went down nor the one
    /// after it, or it has entries of version 1 of the format. `found` is its last entry, if it has
    /// one.
    Changed { found: Option<Durable> },
}
