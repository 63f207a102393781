//! All nodes of a small configuration are seated, and proposers offer commands.
ghost use Rattle.std.specs.Prelude.{◌≡◌, ◌≤◌, true, [], length, IfOk};
ghost use Rattle.std.specs.List.{All};
ghost use Rattle.gp_seats.specs.Seats.{IsBlank};
ghost use Rattle.gp_seats.specs.Offering.{IsKnown};
ghost use Rattle.gp_node_tests.specs.Phases.{IsNewJob};

use gp_command::{Draft, Key, NoMemory, PROPOSERS};
use gp_edge::{Idle, MemDisk};
use gp_msg::OfferList;
use gp_node::{Job, PaxosRules};
use gp_round::Config;
use gp_seats::{Seated, offer_all, seat_all};
use gp_store::{Op, draft_of};
use gp_vlog::Log;
use gp_wire::Wire;
use std::alloc::Global;
use std::sync::Wait;
use std::test::Fail;
use std::thread::Threads;

/// A proposer offers a put at a key of one byte.
pub type Offer = (u32, u8);

/// What is offered, the number of a log, those of the acceptors first, and the numbers of the calls of
/// its disk that fail.
pub type Scene<'a> = (&'a [Offer], u32, &'static [u64]);

/// Nodes of a configuration at a wire to which offers were posted. The jobs are those of all nodes but
/// the proposers.
#[derive(Drop)]
pub struct Offered {
    pub config: Config,
    pub wire: Wire<PaxosRules>,
    pub jobs: Vec<Job<MemDisk>>,
    pub proposers: Vec<Job<MemDisk>>,
}

const MOST_OFFERS: usize = 1_100;

/// Three acceptors, two coordinators and a learner, and the offers of a scene.
pub fn seat_and_offer<R: Threads + Wait + Sync>(
    rt: &R,
    alloc: Global,
    scene: &Scene<'_>,
) -> Result<Offered, NoMemory>
    ensures rules { IfOk result (λ o. o.wire.rules.config ≡ o.config) }
    ensures new { IfOk result (λ o. All (IsNewJob o.wire o.config) o.jobs.items) }
{
    let Ok(config) = Config::new(3, 2, 1) else {
        return Err(NoMemory);
    };
    let (offers, number, failing) = *scene;
    let offers = offers_of(alloc, offers)?;
    let logs = new_logs(
        alloc,
        config.acceptors() + config.coordinators(),
        number,
        failing,
    )?;
    let Ok(
        Seated {
            wire,
            jobs,
            proposers,
        },
    ) = seat_all(alloc, config, logs)
    else {
        return Err(NoMemory);
    };
    let proposers = offer_all(rt, alloc, &wire, proposers, &offers, &Idle)?;
    Ok(Offered {
        config,
        wire,
        jobs,
        proposers,
    })
}

fn offers_of(alloc: Global, offers: &[Offer]) -> Result<OfferList, NoMemory>
    ensures known { IfOk result (λ list. All IsKnown list) }
    ensures few { IfOk result (λ list. length list ≤ MOST_OFFERS) }
{
    let mut list = OfferList::new(alloc);
    if offers.len() > MOST_OFFERS {
        return Err(NoMemory);
    }
    for offer in offers {
        let (proposer, key) = *offer;
        let draft = put_of(alloc, key)?;
        if proposer >= PROPOSERS {
            return Err(NoMemory);
        }
        if list.push((proposer, draft)).is_err() {
            return Err(NoMemory);
        }
    }
    Ok(list)
}

fn put_of(alloc: Global, key: u8) -> Result<Draft, NoMemory> {
    match Key::new(&[key]) {
        Ok(key) => draft_of(alloc, Op::Put(key, 1)),
        Err(_) => Err(NoMemory),
    }
}

// Logs without entries. The disk of one of them fails at these calls, after those that make the log.
fn new_logs(
    alloc: Global,
    count: u32,
    number: u32,
    failing: &[u64],
) -> Result<Vec<Log<MemDisk>>, NoMemory>
    ensures count { IfOk result (λ logs. length logs.items ≡ count) }
    ensures blank { IfOk result (λ logs. All IsBlank logs.items) }
{
    let mut logs = Vec::new(alloc);
    for at in 0..count {
        logs.push(new_log(alloc, if at == number { failing } else { &[] })?)?;
    }
    Ok(logs)
}

fn new_log(alloc: Global, failing: &[u64]) -> Result<Log<MemDisk>, NoMemory>
    ensures { IfOk result IsBlank }
{
    let disk = MemDisk::new(alloc, b"", failing)?;
    match Log::create(alloc, disk, 1_048_576) {
        Ok(log) => Ok(log),
        Err(_) => Err(NoMemory),
    }
}

// Two proposers offer three commands.
const THREE: Scene<'static> = (&[(0, b'a'), (5, b'a'), (0, b'b')], 0, &[]);

#[test]
fn proposers_offer_what_is_their_own(rt: HostRuntime) -> Result<(), Fail> {
    let offered = seat_and_offer(&rt, rt.alloc(), &THREE)?;
    let jobs = offered.jobs.len();
    assert!(rt; (jobs, posted(&offered.proposers)) == (6, [2, 0, 0, 0, 0, 1, 0, 0]));
    Ok(())
}

// How many records each of the proposers posted.
fn posted(jobs: &[Job<MemDisk>]) -> [u64; 8] {
    let mut counts = [0; 8];
    for i in 0..8 {
        if i < jobs.len() {
            counts[i] = jobs[i].cell.posted();
        }
    }
    counts
}
