//! Input and output: the traits of sources, sinks and disks, with types in memory and over readers,
//! writers and files; gates; and reads and writes of whole texts.
#![tactic(auto)]

mod call;
mod calm;
mod disk;
mod disks;
mod failing;
mod file_disk;
mod gate;
mod medium;
mod outside;
mod reading;
mod refusal;
mod schedule;
mod sink;
mod source;
mod unread;
mod writing;

pub use call::{Call, Piece};
pub use calm::{CalmSink, CalmSource};
pub use disk::Disk;
pub use disks::{CalmDisk, MemDisk};
pub use failing::{MemSink, MemSource};
pub use file_disk::FileDisk;
pub use gate::{Gate, Idle};
pub use outside::{ReadSource, WriteSink};
pub use reading::read_up_to;
pub use refusal::{Failed, Refused};
pub use sink::Sink;
pub use source::Source;
pub use writing::write_whole;
