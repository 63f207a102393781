//! The limits of scripts.

/// The greatest number of offers in a script of `play`.
pub const MOST_OFFERS: usize = 1_024;

/// The greatest number of offers in a script of `run`.
pub const MOST_RUN_OFFERS: usize = 64;

/// The greatest number of events in a script.
pub const MOST_EVENTS: usize = 16_384;

/// The greatest number of bytes in a script.
pub const MOST_BYTES: usize = 1_048_576;
