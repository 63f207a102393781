//! Runs of nodes over disks that may fail or be exchanged.
ghost use Rattle.std.specs.Prelude.{◌≡◌, IfOk, length};

use crate::doubles::{CALM, Double, Plan};
use gp_cli::{Ran, serve};
use gp_edge::{CalmSink, CalmSource, Gate};
use std::alloc::Global;
use std::sync::Wait;
use std::test::Fail;
use std::thread::Threads;

/// Eight commands, no two of which conflict.
pub const EIGHT: &[u8] =
    b"nodes 3 3 2\noffer p0 put a 1\noffer p1 add b 2\noffer p2 add b 3\noffer p3 get z\noffer p4 put c 4\noffer p5 del d\noffer p6 cas e 1 2\noffer p7 copy f g\n";

/// Two commands that conflict, which a coordinator with an odd number takes in the other order.
pub const TWO: &[u8] = b"nodes 3 2 1\noffer p0 put a 1\noffer p0 put a 2\n";

/// One command.
pub const ONE: &[u8] = b"nodes 3 1 1\noffer p0 put a 1\n";

/// The number of a disk, and what happens to it.
pub type Planned<'a> = (u64, Plan<'a>);

/// What a run came to.
#[derive(Drop)]
pub struct Outcome {
    pub status: u8,
    /// What it printed.
    pub text: Vec<u8>,
    /// How many records its nodes posted.
    pub records: usize,
    /// How many calls of disk 0 failed.
    pub faults: u64,
}

impl Outcome {
    /// Whether the run ended with this status, and printed this.
    pub fn ended(&self, status: u8, text: &[u8]) -> bool {
        self.status == status && *self.text.as_slice() == *text
    }

    /// How many lines of the text begin with these bytes.
    pub fn count(&self, begin: &[u8]) -> u64 {
        let mut count = 0u64;
        for line in self.text.split(|byte| *byte == b'\n') {
            if line.starts_with(begin) {
                count = count.saturating_add(1);
            }
        }
        count
    }
}

/// The outcome of a subcommand of one word that runs this script over these disks, at this gate. All
/// other disks are calm.
pub fn run_over<W: Threads + Wait + Sync, G: Gate + Sync>(
    rt: &W,
    alloc: Global,
    word: &str,
    script: &[u8],
    planned: &[Planned<'_>],
    gate: &G,
) -> Result<Outcome, Fail> {
    let words = [String::from_str(alloc, word)?];
    let mut source = CalmSource::new(alloc, script)?;
    let mut sink = CalmSink::new(alloc)?;
    let disks = disks_of(alloc, planned)?;
    let ran = serve(rt, alloc, &words, &mut source, &mut sink, disks, gate);
    outcome_of(alloc, &ran, sink.written())
}

fn outcome_of(alloc: Global, ran: &Ran<Double<'_>>, text: &[u8]) -> Result<Outcome, Fail> {
    Ok(Outcome {
        status: ran.status,
        text: Vec::from_slice(alloc, text)?,
        records: ran.trail.records().len(),
        faults: faults_of_first(&ran.disks),
    })
}

fn faults_of_first(disks: &[Double<'_>]) -> u64 {
    match disks.first() {
        Some(disk) => disk.faults(),
        None => 0,
    }
}

// Twelve empty disks.
fn disks_of<'a>(alloc: Global, planned: &[Planned<'a>]) -> Result<Vec<Double<'a>>, Fail>
    ensures { IfOk result (λ disks. length disks.items ≡ 12) }
{
    let mut disks = Vec::new(alloc);
    for number in 0..12 {
        disks.push(Double::new(alloc, plan_of(planned, number))?)?;
    }
    Ok(disks)
}

fn plan_of<'a>(planned: &[Planned<'a>], number: u64) -> Plan<'a> {
    for (disk, plan) in planned {
        if *disk == number {
            return *plan;
        }
    }
    CALM
}
