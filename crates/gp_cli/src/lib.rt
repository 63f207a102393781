//! The program, over any source, sink and disks.
#![tactic(auto)]

mod auditing;
mod disks;
pub mod laws;
mod logs;
mod nodes;
mod process;
mod program;
mod ran;
mod runs;
mod serving;
mod status;
mod subcommand;
mod telling;

pub use disks::file_disks;
pub use gp_shelf::DISKS;
pub use process::run_process;
pub use program::{Ended, run_program};
pub use ran::{Ran, Trail};
pub use serving::serve;
