//! A publisher and two readers beside the work phases of nodes.
ghost use Rattle.std.specs.Prelude.{◌≡◌, All};
ghost use Rattle.gp_phase.specs.Beside.{topics};
ghost use Rattle.gp_onlookers.specs.Ends.{AreWatching, topic_of};
ghost use Rattle.gp_node_tests.specs.Phases.{IsNewJob};

use crate::outcome::holds;
use crate::rounds::leader_of;
use crate::seated::{Offered, Scene, seat_and_offer};
use gp_caller::RoundCaller;
use gp_command::{Key, NoMemory};
use gp_edge::{Disk, Idle, MemDisk};
use gp_index::History;
use gp_msg::Node;
use gp_node::{Cell, Job, PaxosRules};
use gp_onlookers::{Looks, Onlookers, Publisher, Watcher, close, last_looks, watch};
use gp_phase::{Beside, Trio, call_first, run_phases};
use gp_round::Config;
use gp_wire::Wire;
use std::alloc::Global;
use std::sync::Wait;
use std::test::Fail;
use std::thread::Threads;

// A publisher that counts the work phases.
struct Counted {
    publisher: Publisher,
    phases: usize,
}

impl<D: Disk> Beside<Wire<PaxosRules>, Cell<D>> for Counted {
    ghost use Rattle.logbook.specs.Pages.{Book};

    ghost Topic = { Book };

    ghost topic = { λ counted. counted.publisher.feed };

    fn prepare(&mut self, jobs: &[Job<D>]) {
        self.phases = self.phases.saturating_add(1);
        self.publisher.prepare(jobs);
    }

    fn act<W: Wait>(&mut self, rt: &W) {
        Beside::<Wire<PaxosRules>, Cell<D>>::act(&mut self.publisher, rt);
    }
}

// Two commands that write one key, and disks that do not fail.
const SCENE: Scene<'static> = (&[(0, b'a'), (0, b'a')], 0, &[]);

const NO_OFFERS: Scene<'static> = (&[], 0, &[]);

// How many work phases there were, and how often each reader looked.
type Counts = (usize, usize, usize);

#[test]
fn each_reader_looks_once_in_each_phase_and_once_after_them(rt: HostRuntime) -> Result<(), Fail> {
    let (counts, _jobs) = run(&rt, rt.alloc(), Key::new(b"a")?)?;
    let (phases, first, second) = counts;
    let looks = phases.saturating_add(1);
    assert!(rt; phases > 1 && (first, second) == (looks, looks));
    Ok(())
}

#[test]
fn the_first_learner_is_followed(rt: HostRuntime) -> Result<(), Fail> {
    holds(&rt, follows_the_first(&rt, rt.alloc(), Key::new(b"a")?))
}

// Whether a publisher follows the first one of two learners, of which one has learned two commands
// and the other nothing.
fn follows_the_first<R: Threads + Wait + Sync>(
    rt: &R,
    alloc: Global,
    key: Key,
) -> Result<bool, Fail> {
    let mut learners = learners(rt, alloc, key)?;
    let follows_learned = seen_beside(rt, alloc, key, &learners)? == Some(2);
    learners.reverse();
    let follows_fresh = seen_beside(rt, alloc, key, &learners)? == Some(0);
    Ok(follows_learned && follows_fresh)
}

// The job of a learner that has learned both commands, and that of one that has learned nothing.
fn learners<R: Threads + Wait + Sync>(
    rt: &R,
    alloc: Global,
    key: Key,
) -> Result<Vec<Job<MemDisk>>, NoMemory> {
    let (_counts, worked) = run(rt, alloc, key)?;
    let fresh = seat_and_offer(rt, alloc, &NO_OFFERS)?;
    let mut learners = Vec::new(alloc);
    for jobs in [worked, fresh.jobs] {
        learners.push(learner_in(jobs)?)?;
    }
    Ok(learners)
}

fn learner_in(jobs: Vec<Job<MemDisk>>) -> Result<Job<MemDisk>, NoMemory> {
    for job in jobs {
        if job.cell.learned().is_some() {
            return Ok(job);
        }
    }
    Err(NoMemory)
}

// How many commands the first look sees of what is published before a work phase of these jobs.
fn seen_beside<R: Wait>(
    rt: &R,
    alloc: Global,
    key: Key,
    jobs: &[Job<MemDisk>],
) -> Result<Option<u64>, NoMemory> {
    let mut onlookers = watch(rt, alloc, key)?;
    publish_beside(rt, &mut onlookers, jobs);
    let looks = looks_of(rt, alloc, key, onlookers, jobs)?;
    Ok(looks.first.first().map(|look| look.seen))
}

// What the onlookers do beside a work phase of these jobs, in one thread.
fn publish_beside<R: Wait>(rt: &R, onlookers: &mut Onlookers, jobs: &[Job<MemDisk>])
    ensures { topics (λ p. p.feed) topic_of onlookers.new ≡ topics (λ p. p.feed) topic_of onlookers.old }
{
    Beside::<Wire<PaxosRules>, Cell<MemDisk>>::prepare(&mut onlookers.main, jobs);
    Beside::<Wire<PaxosRules>, Cell<MemDisk>>::act(&mut onlookers.main, rt);
    Beside::<Wire<PaxosRules>, Cell<MemDisk>>::act(&mut onlookers.first, rt);
}

// What both readers saw, up to the end of what the first learner has learned.
fn looks_of<R: Wait>(
    rt: &R,
    alloc: Global,
    key: Key,
    onlookers: Onlookers,
    jobs: &[Job<MemDisk>],
) -> Result<Looks, NoMemory>
    requires { AreWatching key (topics (λ p. p.feed) topic_of onlookers) }
{
    match learned_in(jobs) {
        Some(learned) => last_looks(rt, alloc, key, onlookers, learned),
        None => {
            close(rt, onlookers);
            Err(NoMemory)
        }
    }
}

fn learned_in<'a>(jobs: &'a [Job<MemDisk>]) -> Option<&'a History> {
    for job in jobs {
        if let Some(learned) = job.cell.learned() {
            return Some(learned);
        }
    }
    None
}

// The jobs of nodes that have learned both commands, and what was counted meanwhile.
fn run<R: Threads + Wait + Sync>(
    rt: &R,
    alloc: Global,
    key: Key,
) -> Result<(Counts, Vec<Job<MemDisk>>), NoMemory> {
    let Offered {
        config,
        wire,
        jobs,
        proposers: _,
    } = seat_and_offer(rt, alloc, &SCENE)?;
    run_beside(rt, alloc, config, &wire, jobs, key)
}

fn run_beside<R: Threads + Wait + Sync>(
    rt: &R,
    alloc: Global,
    config: Config,
    wire: &Wire<PaxosRules>,
    mut jobs: Vec<Job<MemDisk>>,
    key: Key,
) -> Result<(Counts, Vec<Job<MemDisk>>), NoMemory>
    requires rules { wire.now.rules.config ≡ config }
    requires new { All (IsNewJob wire.now config) jobs.items }
{
    let Some(at) = leader_of(&jobs) else {
        return Err(NoMemory);
    };
    let mut caller = RoundCaller::new(alloc, config)?;
    call_first(rt, wire, &mut jobs, at, &mut caller)?;
    let mut beside = counting(watch(rt, alloc, key)?);
    let phases = run_phases(
        rt,
        alloc,
        wire,
        jobs,
        at,
        &mut caller,
        &mut beside,
        2,
        &Idle,
    );
    let counts = counts_of(rt, alloc, key, beside, &phases.jobs)?;
    Ok((counts, phases.jobs))
}

// The onlookers, whose publisher counts the work phases.
fn counting(onlookers: Onlookers) -> Trio<Counted, Watcher>
    ensures { topics (λ c. c.publisher.feed) topic_of result ≡ topics (λ p. p.feed) topic_of onlookers }
{
    let Trio {
        main: publisher,
        first,
        second,
    } = onlookers;
    let main = Counted {
        publisher,
        phases: 0,
    };
    Trio {
        main,
        first,
        second,
    }
}

fn counts_of<R: Wait>(
    rt: &R,
    alloc: Global,
    key: Key,
    beside: Trio<Counted, Watcher>,
    jobs: &[Job<MemDisk>],
) -> Result<Counts, NoMemory>
    requires { AreWatching key (topics (λ c. c.publisher.feed) topic_of beside) }
{
    let Trio {
        main: Counted { publisher, phases },
        first,
        second,
    } = beside;
    let onlookers = Trio {
        main: publisher,
        first,
        second,
    };
    let looks = looks_of(rt, alloc, key, onlookers, jobs)?;
    Ok((phases, looks.first.len(), looks.second.len()))
}
