//! Where a job has come to when its disk fails in the second batch of a phase.
ghost use Rattle.std.specs.Prelude.{◌≡◌, All};
ghost use Rattle.gp_node_tests.specs.Phases.{IsNewJob};

use crate::rounds::leader_of;
use crate::seated::{Offered, Scene, seat_and_offer};
use gp_caller::RoundCaller;
use gp_command::NoMemory;
use gp_edge::{Gate, MemDisk};
use gp_msg::Node;
use gp_node::{Job, JobFault, PaxosRules};
use gp_phase::{Trio, call_first, run_phases};
use gp_round::Config;
use gp_wire::Wire;
use gp_work::Process;
use std::alloc::Global;
use std::sync::Wait;
use std::sync::atomic::{AtomicU64, Ordering};
use std::test::Fail;
use std::thread::{self, Threads};

// How often a step looks for another one before it goes on alone.
const LOOKS: u32 = 1_000_000;

// One command. The disk of acceptor 0 fails in its first entry, and again when the node recovers.
const SCENE: Scene<'static> = (&[(0, b'a')], 0, &[3, 4]);

// A gate at which the leader begins its round after the acceptor has found the offer alone, and the
// acceptor takes that after the round has begun. So the acceptor finds the beginning in a batch of its
// own, the second one of the phase.
#[derive(Drop)]
struct Between {
    // whether the acceptor has found the offer, and whether the round has begun
    found: AtomicU64,
    begun: AtomicU64,
}

impl Between {
    fn wait_for(&self, other: &AtomicU64) {
        for _ in 0..LOOKS {
            if other.load(Ordering::SeqCst) == 1 {
                return;
            }
            thread::yield_now();
        }
    }
}

impl Gate for Between {
    fn at(&self, node: Node, turn: u64) {
        match (node, turn) {
            (Node::Acceptor(0), 0) => {
                self.found.store(1, Ordering::SeqCst);
                self.wait_for(&self.begun);
            }
            (Node::Coordinator(0), 0) => self.wait_for(&self.found),
            (Node::Coordinator(0), 1) => self.begun.store(1, Ordering::SeqCst),
            _ => {}
        }
    }
}

#[test]
fn after_a_fault_the_cursor_is_where_the_batch_began(rt: HostRuntime) -> Result<(), Fail> {
    let jobs = run(&rt, rt.alloc())?;
    assert!(rt; jobs.iter().any(has_stopped));
    Ok(())
}

// Whether it is the job of the acceptor, which took the offer and ended with a fault after that.
fn has_stopped(job: &Job<MemDisk>) -> bool {
    let is_failed = matches!(job.fault, Some(JobFault::Disk));
    job.cell.node() == Node::Acceptor(0)
        && is_failed
        && (job.risen, job.turn, job.cursor) == (true, 2, 1)
}

fn run<R: Threads + Wait + Sync>(rt: &R, alloc: Global) -> Result<Vec<Job<MemDisk>>, NoMemory> {
    let Offered {
        config,
        wire,
        jobs,
        proposers: _,
    } = seat_and_offer(rt, alloc, &SCENE)?;
    run_jobs(rt, alloc, config, &wire, jobs)
}

fn run_jobs<R: Threads + Wait + Sync>(
    rt: &R,
    alloc: Global,
    config: Config,
    wire: &Wire<PaxosRules>,
    mut jobs: Vec<Job<MemDisk>>,
) -> Result<Vec<Job<MemDisk>>, NoMemory>
    requires rules { wire.now.rules.config ≡ config }
    requires new { All (IsNewJob wire.now config) jobs.items }
{
    let Some(at) = leader_of(&jobs) else {
        return Err(NoMemory);
    };
    let gate = Between {
        found: AtomicU64::new(0),
        begun: AtomicU64::new(0),
    };
    let mut caller = RoundCaller::new(alloc, config)?;
    call_first(rt, wire, &mut jobs, at, &mut caller)?;
    let mut beside = Trio::NOTHING;
    let phases = run_phases(
        rt,
        alloc,
        wire,
        jobs,
        at,
        &mut caller,
        &mut beside,
        1,
        &gate,
    );
    Ok(phases.jobs)
}
