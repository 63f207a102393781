//! `mcgp`: runs the subcommand that its arguments name, over standard input, standard output and
//! the files of the folder `mcgp-data`.
#![tactic(auto)]

use gp_cli::{Ended, file_disks, run_process};
use gp_edge::FileDisk;

fn main(rt: HostRuntime) -> Ended<FileDisk<HostRuntime>> {
    run_process(&rt, file_disks(rt.alloc(), rt))
}
