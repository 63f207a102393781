//! The arguments of the program, and the status with which it ends.
ghost use Rattle.std.specs.Prelude.{◌≡◌, IfOk, length};

use crate::stage::{disks_with, owned};
use gp_cli::run_program;
use gp_command::NoMemory;
use gp_edge::{CalmSink, CalmSource, Idle, MemDisk};
use std::alloc::Global;
use std::env::Args;
use std::io::{self, ErrorKind};
use std::process::{ExitCode, Termination};
use std::sync::Wait;
use std::test::Fail;
use std::thread::Threads;

const USAGE: &[u8] =
    b"usage: mcgp play | run [LIMIT] | sim SEED COMMANDS | drive A L K | log K | upgrade K | audit | adapt | bank | views KEY\n";

const SCRIPT: &[u8] = b"nodes 3 1 1\n";

const PRINTS: &[u8] = b"l0 learned 0: -\nl0 state: -\nl0 replies: -\nevents 0 messages 0\n";

// The disks of the program, unless there is no memory for them.
fn disks_for(alloc: Global, has_memory: bool) -> Result<Result<Vec<MemDisk>, NoMemory>, Fail>
    ensures { IfOk result (λ disks. IfOk disks (λ d. length d.items ≡ 12)) }
{
    if has_memory {
        Ok(Ok(disks_with(alloc, 0, &[])?))
    } else {
        Ok(Err(NoMemory))
    }
}

// Whether the program ends with this status, and prints this. There may be no memory for its disks.
fn ends<R: Eprint + Threads + Wait + Sync>(
    rt: &R,
    alloc: Global,
    arguments: io::Result<Args>,
    has_memory: bool,
    status: u8,
    prints: &[u8],
) -> Result<bool, Fail> {
    let mut sink = CalmSink::new(alloc)?;
    let code = code_of(rt, alloc, arguments, has_memory, &mut sink)?;
    Ok(code == ExitCode::from(status) && sink.written() == prints)
}

fn code_of<R: Eprint + Threads + Wait + Sync>(
    rt: &R,
    alloc: Global,
    arguments: io::Result<Args>,
    has_memory: bool,
    sink: &mut CalmSink,
) -> Result<ExitCode, Fail> {
    let mut source = CalmSource::new(alloc, SCRIPT)?;
    let disks = disks_for(alloc, has_memory)?;
    let ended = run_program(rt, alloc, arguments, &mut source, sink, disks, &Idle);
    Ok(ended.report(rt))
}

// The same, if the environment gives these arguments.
fn given<R: Eprint + Threads + Wait + Sync>(
    rt: &R,
    alloc: Global,
    row: &Given,
) -> Result<bool, Fail> {
    let (words, has_memory, status, prints) = *row;
    let arguments = owned(alloc, words)?.into_iter();
    ends(rt, alloc, Ok(arguments), has_memory, status, prints)
}

// What the environment gives, whether there is memory for the disks, the exit status, and what is
// printed.
type Given = (&'static [&'static str], bool, u8, &'static [u8]);

static GIVEN: [Given; 7] = [
    (&["mcgp", "play"], true, 0, PRINTS),
    (&["play", "play"], true, 0, PRINTS),
    (&["mcgp", "play", "now"], true, 2, USAGE),
    (&["mcgp", "now", "play"], true, 2, USAGE),
    (&["play"], true, 2, USAGE),
    (&[], true, 2, USAGE),
    (&["mcgp", "play"], false, 1, b""),
];

#[test]
fn the_words_after_the_name_are_the_command(rt: HostRuntime) -> Result<(), Fail> {
    for row in &GIVEN {
        assert!(rt; given(&rt, rt.alloc(), row)?);
    }
    Ok(())
}

// Why the environment gives no arguments, the exit status, and what is printed.
type Refused = (ErrorKind, u8, &'static [u8]);

// An argument that is no text is no command, and there may be no memory for the arguments.
static REFUSED: [Refused; 2] = [
    (ErrorKind::InvalidData, 2, USAGE),
    (ErrorKind::OutOfMemory, 1, b""),
];

#[test]
fn a_command_whose_arguments_are_refused_is_not_run(rt: HostRuntime) -> Result<(), Fail> {
    for (kind, status, prints) in &REFUSED {
        let arguments = Err(io::Error::from(*kind));
        assert!(rt; ends(&rt, rt.alloc(), arguments, true, *status, prints)?);
    }
    Ok(())
}
