//! Tests of disks over files. The files are in memory. They move one byte a call, note each call,
//! let one call fail, and know what a crash leaves.
#![tactic(auto)]

#[cfg(test)]
mod calls;
#[cfg(test)]
mod crashes;
#[cfg(test)]
mod fake;
#[cfg(test)]
mod long_files;
