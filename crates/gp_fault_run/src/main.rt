//! The program `mcgp`, for a stored run in which a disk fails: a folder stands in the place of the
//! file of disk 0. The run shows that the words, the whole input, the files and the output of the
//! process are those of the program, and that the status of the process is that of the run.
#![tactic(auto)]

use gp_cli::{Ended, file_disks, run_process};
use gp_edge::FileDisk;

fn main(rt: HostRuntime) -> Ended<FileDisk<HostRuntime>> {
    run_process(&rt, file_disks(rt.alloc(), rt))
}
