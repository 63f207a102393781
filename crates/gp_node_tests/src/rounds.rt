//! Work phases until nothing is left to do: the leader begins a multi round, and a single round
//! after that one has collided.
ghost use Rattle.std.specs.Prelude.{◌≡◌, ◌<◌, length, slice_index_or, IfSome, All};
ghost use Rattle.gp_work.specs.declared.job.Job.{Job};
ghost use Rattle.gp_edge.specs.Records.{MemDiskState};
ghost use Rattle.gp_cell.specs.Cells.{CellState};
ghost use Rattle.gp_msg.specs.declared.node.Node.TheVariants.{Coordinator};
ghost use Rattle.gp_node_tests.specs.Phases.{IsNewJob};

use crate::counter::{Encounter, all_acted, counters};
use crate::seated::{Offered, Scene, seat_and_offer};
use gp_caller::{CALM, FIRST_ROUND, LEADER, RoundCaller};
use gp_command::NoMemory;
use gp_edge::MemDisk;
use gp_history::Hist;
use gp_msg::Node;
use gp_node::{Job, JobFault, PaxosRules};
use gp_phase::{Call, PhasesEnd, call_first, run_phases};
use gp_round::{Config, Mode, Round};
use gp_stage::{MOST_ENTRIES, MOST_ROUNDS};
use gp_wire::Wire;
use gp_work::Process;
use std::alloc::Global;
use std::sync::Wait;
use std::test::Fail;
use std::thread::Threads;

const FIRST: Call = Call {
    epoch: 0,
    round: FIRST_ROUND,
};

const SECOND: Call = Call {
    epoch: 0,
    round: Round {
        count: 2,
        mode: Mode::Single,
        lead: 0,
    },
};

// What work phases lead to: whether they end quietly, or at a disk that fails twice, the calls, and
// how many commands are learned.
type Case = (Scene<'static>, bool, &'static [Call], usize);

// The logs of three acceptors come before that of coordinator 0.
const LEADERS_LOG: u32 = 3;

// Coordinator 1 takes the offers in the other order than coordinator 0. The first three calls of a
// disk make its log, and the next four append the first entry. A node whose disk fails there
// crashes, and it ends its work if the disk fails again when it restarts. A leader that crashes in
// its first move has begun no round.
static CASES: [Case; 6] = [
    ((&[], 0, &[]), true, &[FIRST], 0),
    ((&[(0, b'a'), (0, b'b')], 0, &[]), true, &[FIRST], 2),
    ((&[(0, b'a'), (0, b'a')], 0, &[]), true, &[FIRST, SECOND], 2),
    ((&[(0, b'a'), (0, b'b')], 0, &[3]), true, &[FIRST], 2),
    (
        (&[(0, b'a'), (0, b'b')], LEADERS_LOG, &[3]),
        true,
        &[FIRST],
        0,
    ),
    ((&[], LEADERS_LOG, &[3, 4]), false, &[FIRST], 0),
];

// What work phases led to: whether they ended quietly, whether one node could not recover and the
// others have no fault, whether these were the calls and the work beside each phase was done while
// the nodes worked, and how many commands were learned.
type Outcome = (bool, bool, bool, usize);

#[test]
fn a_clash_is_answered_by_a_single_round(rt: HostRuntime) -> Result<(), Fail> {
    let alloc = rt.alloc();
    for case in &CASES {
        assert!(rt; case_holds(&rt, alloc, case)?);
    }
    Ok(())
}

fn case_holds<R: Threads + Wait + Sync>(
    rt: &R,
    alloc: Global,
    case: &Case,
) -> Result<bool, NoMemory> {
    let (scene, quiet, calls, learned) = case;
    Ok(run(rt, alloc, scene, calls)? == (*quiet, !*quiet, true, *learned))
}

// Each node finds more than a thousand messages in its first look, and takes them in one batch.
#[test]
fn a_batch_may_be_long(rt: HostRuntime) -> Result<(), Fail> {
    assert!(rt; learns_many(&rt, rt.alloc(), 1_100)?);
    Ok(())
}

// Whether so many commands, which write 25 keys, are learned after a clash.
fn learns_many<R: Threads + Wait + Sync>(
    rt: &R,
    alloc: Global,
    count: usize,
) -> Result<bool, NoMemory> {
    let mut offers = Vec::new(alloc);
    for number in 0..count {
        offers.push((0, b'a' + (number % 25) as u8))?;
    }
    let scene = (offers.as_slice(), 0, [].as_slice());
    Ok(run(rt, alloc, &scene, &[FIRST, SECOND])? == (true, false, true, count))
}

// Contracts cite these constants, so they do not fix them.
#[test]
fn the_constants_are_these(rt: HostRuntime) -> Result<(), Fail> {
    assert!(rt; (CALM, MOST_ROUNDS, MOST_ENTRIES) == (2, 999_999, 2_147_483_648));
    Ok(())
}

// Posts the offers, and runs the work phases.
fn run<R: Threads + Wait + Sync>(
    rt: &R,
    alloc: Global,
    scene: &Scene<'_>,
    calls: &[Call],
) -> Result<Outcome, NoMemory> {
    let Offered {
        config,
        wire,
        jobs,
        proposers: _,
    } = seat_and_offer(rt, alloc, scene)?;
    run_jobs(rt, alloc, config, &wire, jobs, calls, scene.0.len() as u64)
}

// Runs the work phases of the jobs.
fn run_jobs<R: Threads + Wait + Sync>(
    rt: &R,
    alloc: Global,
    config: Config,
    wire: &Wire<PaxosRules>,
    jobs: Vec<Job<MemDisk>>,
    calls: &[Call],
    others: u64,
) -> Result<Outcome, NoMemory>
    requires rules { wire.now.rules.config ≡ config }
    requires new { All (IsNewJob wire.now config) jobs.items }
{
    let Some(at) = leader_of(&jobs) else {
        return Err(NoMemory);
    };
    let mut jobs = jobs;
    let mut caller = RoundCaller::new(alloc, config)?;
    call_first(rt, wire, &mut jobs, at, &mut caller)?;
    let encounter = Encounter::new();
    let mut beside = counters(&encounter);
    let phases = run_phases(
        rt,
        alloc,
        wire,
        jobs,
        at,
        &mut caller,
        &mut beside,
        others,
        &encounter,
    );
    Ok((
        phases.end == PhasesEnd::Quiet,
        is_one_broken(&phases.jobs),
        caller.calls() == calls && all_acted(&beside) && encounter.has_been(),
        learned(&phases.jobs),
    ))
}

// The place of the leader's job, after those of three acceptors.
const LEADERS_PLACE: usize = 3;

/// The place of the leader's job.
pub fn leader_of(jobs: &[Job<MemDisk>]) -> Option<usize>
    ensures at { IfSome result (λ at. at < length jobs.now) }
    ensures node { IfSome result (λ at. (d : Job (CellState MemDiskState)) → (slice_index_or jobs.now at d).cell.node ≡ Coordinator LEADER) }
{
    let at = LEADERS_PLACE;
    if at < jobs.len() && jobs[at].cell.node() == Node::Coordinator(LEADER) {
        Some(at)
    } else {
        None
    }
}

// Whether one job ended so, and the others have no fault.
fn is_one_broken(jobs: &[Job<MemDisk>]) -> bool {
    let faults = jobs.iter().filter(|job| job.fault.is_some()).count();
    faults == 1 && jobs.iter().any(is_broken)
}

// Whether a job ended in the first batch of its node, whose disk failed again when it recovered.
fn is_broken(job: &Job<MemDisk>) -> bool {
    matches!(job.fault, Some(JobFault::Disk)) && (job.risen, job.turn, job.cursor) == (true, 1, 0)
}

// How many commands the learner learned.
fn learned(jobs: &[Job<MemDisk>]) -> usize {
    for job in jobs {
        if let Some(learned) = job.cell.learned() {
            return learned.len();
        }
    }
    0
}
