//! The program, over what the runtime of a process gives.
ghost use Rattle.std.specs.Prelude.{◌≡◌, ◌≤◌, IfOk, length};
ghost use Rattle.gp_cli.specs.Serving.{EachDisk};
ghost use Rattle.gp_cli.specs.Program.{given_disks};
ghost use Rattle.gp_cli.specs.Processes.{IsProcessRun};

use crate::program::{Ended, run_program};
use gp_command::NoMemory;
use gp_edge::{Disk, Idle, ReadSource, WriteSink};
use std::rt::Env;
use std::sync::Wait;
use std::thread::Threads;
use std::{env, io};

/// Runs the program over these disks, and over the arguments, the standard input and the standard
/// output of the runtime: `run_program` with these.
///
/// No clause can name what a runtime gives. So the clauses say that the program ran over some
/// arguments, some input and some output, and tests show that they are those of the runtime. The bounds are
/// all that the program may use of the runtime. None of them lets it write to standard error
/// (`Eprint`), end the process (`Abort`), open a socket (`Net`) or start a program (`Processes`).
pub fn run_process<R: Env + Input + Print + AllocGlobal + Threads + Wait + Sync, D: Disk + Send>(
    rt: &R,
    disks: Result<Vec<D>, NoMemory>,
) -> Ended<D>
    requires twelve { IfOk disks (λ d. length d.items ≡ 12) }

    // The program ran over these disks and over some arguments, some input and some output, with
    // all clauses of `run_program`.
    ensures ran { IsProcessRun D.content D.image D.moment D.since D.faults disks result }
    ensures disks_never_fall { EachDisk (λ was is. D.faults was ≤ D.faults is) (given_disks disks) result.disks.items }
{
    let mut source = ReadSource::new(rt.reader());
    let mut sink = WriteSink::new(io::writer(rt));
    run_program(
        rt,
        rt.alloc(),
        env::args(rt),
        &mut source,
        &mut sink,
        disks,
        &Idle,
    )
}
