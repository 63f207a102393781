//! The exit statuses of a run.

/// The subcommand ran to its end, and all was written.
pub const DONE: u8 = 0;

/// Memory ran out.
pub const NO_MEMORY: u8 = 1;

/// The words name no subcommand.
pub const MISUSED: u8 = 2;

/// A line of the input is refused.
pub const REFUSED: u8 = 3;

/// The source failed.
pub const UNREAD: u8 = 4;

/// The sink failed.
pub const UNWRITTEN: u8 = 5;

/// A disk failed.
pub const DISK_FAILED: u8 = 6;

/// A log has no room for an entry.
pub const LOG_FULL: u8 = 7;

/// The bytes of a disk are not a log, or not the log that was written there.
pub const NO_LOG: u8 = 8;
