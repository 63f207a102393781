//! The subcommands that run nodes in threads: `run`, `adapt` and `views`.
ghost use Rattle.std.specs.Prelude.{◌≡◌, ◌≤◌, ℕ, List, [], Option, Some, None, Err, length};
ghost use Rattle.gp_run.specs.Legal.{Legal};
ghost use Rattle.gp_run.specs.Runs.{newest_first};
ghost use Rattle.gp_cluster.specs.declared.policy.RoundPolicy.{RoundPolicy};
ghost use Rattle.gp_text.specs.OfferAnswers.{Reads};
ghost use Rattle.gp_text.specs.Offering.{OffersReading, Offered, offers_reading};
ghost use Rattle.gp_text.specs.Offered.{AreOffered};
ghost use Rattle.gp_cli.specs.declared.subcommand.Subcommand.TheVariants.{Run};
ghost use Rattle.gp_cli.specs.declared.ran.Trail.TheVariants.{Folded};
ghost use Rattle.gp_cli.specs.Outside.{device, disk_states};
ghost use Rattle.gp_phase.specs.Beside.{topics};
ghost use Rattle.gp_onlookers.specs.Ends.{AreWatching, topic_of};
ghost use Rattle.gp_cli.specs.Endings.{Runs, end_text};
ghost use Rattle.gp_cli.specs.Viewed.{TellsViewed};
ghost use Rattle.gp_cli.specs.Run.{IsOffersCause, IsNodesCause};
ghost use Rattle.gp_cli.specs.Logs.{TellsEnding};
ghost use Rattle.gp_cli.specs.Serving.{EndsBy, EachDisk, KeepsUnused};
ghost use Rattle.gp_cli.specs.Trails.{records_in, IsOfNodes};

use crate::ran::{Ran, Trail};
use crate::runs::MOST_READ;
use crate::status::{DISK_FAILED, DONE, LOG_FULL, NO_LOG, NO_MEMORY, REFUSED, UNREAD, UNWRITTEN};
use crate::telling::{
    DISK_FAULT, LOG_CHANGED, READ_FAULT, broken_text, full_text, refusal_text, tell, tell_of,
};
use gp_cluster::{RoundPolicy, run_nodes};
use gp_command::{Key, NoMemory};
use gp_edge::{Disk, Gate, Refused, Sink, Source, read_up_to};
use gp_ending::RunEnd;
use gp_msg::{Record, Records};
use gp_onlookers::{Onlookers, close, watch};
use gp_phase::Trio;
use gp_retelling::{run_text, views_text};
use gp_round::Config;
use gp_text::{Offers, Unread, read_offers};
use gp_vlog::{LEAST_LIMIT, MOST_LIMIT};
use std::alloc::Global;
use std::sync::Wait;
use std::thread::Threads;

// No node ran, and the disks are as they were.
fn without_nodes<D: Disk>(alloc: Global, status: u8, disks: Vec<D>) -> Ran<D>
    ensures status { result.status ≡ status }
    ensures trail { result.trail ≡ Folded [] }
    ensures disks { result.disks.items ≡ disks.items }
{
    Ran {
        status,
        trail: Trail::Folded(Records::new(alloc)),
        disks,
    }
}

// Prints how a run of nodes ended. The nodes posted these records.
fn tell_end<K: Sink>(
    alloc: Global,
    config: &Config,
    end: RunEnd,
    records: &[Record],
    sink: &mut K,
) -> u8
    requires legal { Legal config.now (newest_first records.now) }
    ensures told { TellsEnding (Runs end config.now records.now (end_text end config.now records.now)) (device (K.written sink.old) (K.faults sink.old)) (device (K.written sink.new) (K.faults sink.new)) result }
    ensures never_falls { K.faults sink.old ≤ K.faults sink.new }
{
    match end {
        RunEnd::Learned => tell_of(sink, run_text(alloc, config, records), DONE, UNWRITTEN),
        RunEnd::NoMemory => NO_MEMORY,
        RunEnd::Disk => tell(sink, DISK_FAULT, DISK_FAILED, DISK_FAILED),
        RunEnd::Full { size, need } => {
            tell_of(sink, full_text(alloc, size, need), LOG_FULL, LOG_FULL)
        }
        RunEnd::NotLog { at } => tell_of(sink, broken_text(alloc, at), NO_LOG, NO_LOG),
        RunEnd::Changed => tell(sink, LOG_CHANGED, NO_LOG, NO_LOG),
    }
}

// Prints how a run of nodes ended and, if all was learned, what the onlookers saw of the key. The
// nodes posted these records.
fn tell_viewed<K: Sink, W: Wait>(
    rt: &W,
    alloc: Global,
    config: &Config,
    key: Key,
    end: RunEnd,
    records: &[Record],
    onlookers: Onlookers,
    sink: &mut K,
) -> u8
    requires legal { Legal config.now (newest_first records.now) }
    requires watching { AreWatching key (topics (λ p. p.feed) topic_of onlookers) }
    ensures told { TellsViewed key end config.now records.now (device (K.written sink.old) (K.faults sink.old)) (device (K.written sink.new) (K.faults sink.new)) result }
    ensures never_falls { K.faults sink.old ≤ K.faults sink.new }
{
    match end {
        RunEnd::Learned => match views_text(rt, alloc, config, key, records, onlookers) {
            Ok(text) => tell(sink, &text, DONE, UNWRITTEN),
            Err(NoMemory) => NO_MEMORY,
        },
        _ => {
            close(rt, onlookers);
            tell_end(alloc, config, end, records, sink)
        }
    }
}

// Runs the nodes of a configuration, and prints how the run ended.
fn run_plainly<K: Sink, D: Disk + Send, W: Threads + Wait + Sync, G: Gate + Sync>(
    rt: &W,
    alloc: Global,
    policy: RoundPolicy,
    limit: u32,
    offers: &Offers,
    sink: &mut K,
    disks: Vec<D>,
    gate: &G,
) -> Ran<D>
    requires twelve { length disks.items ≡ 12 }
    requires low { LEAST_LIMIT ≤ limit }
    requires high { limit ≤ MOST_LIMIT }
    requires right { AreOffered offers.now }
    ensures ends { EndsBy (IsOffersCause policy limit None (Offered offers.now) (disk_states D.content D.faults disks.items) (disk_states D.content D.faults result.disks.items))
        (device (K.written sink.old) (K.faults sink.old)) (device (K.written sink.new) (K.faults sink.new)) result.status (records_in result.trail) }
    ensures posted { IsOfNodes result.status result.trail }
    ensures others { KeepsUnused (Some (Run policy limit None)) (IsOffersCause policy limit None (Offered offers.now) (disk_states D.content D.faults disks.items) (disk_states D.content D.faults result.disks.items))
        disks.items result.disks.items }
    ensures disks_never_fall { EachDisk (λ was is. D.faults was ≤ D.faults is) disks.items result.disks.items }
    ensures never_falls { K.faults sink.old ≤ K.faults sink.new }
{
    let mut beside = Trio::NOTHING;
    let run = run_nodes(
        rt,
        alloc,
        offers.config,
        policy,
        limit,
        &offers.list,
        &mut beside,
        disks,
        gate,
    );
    let trail = Trail::of(alloc, run.posted);
    let status = tell_end(alloc, &offers.config, run.end, trail.records(), sink);
    Ran {
        status,
        trail,
        disks: run.disks,
    }
}

// Runs the nodes of a configuration while onlookers look at a key, and prints how the run ended and
// what was seen.
fn run_viewed<K: Sink, D: Disk + Send, W: Threads + Wait + Sync, G: Gate + Sync>(
    rt: &W,
    alloc: Global,
    policy: RoundPolicy,
    limit: u32,
    key: Key,
    offers: &Offers,
    sink: &mut K,
    disks: Vec<D>,
    gate: &G,
) -> Ran<D>
    requires twelve { length disks.items ≡ 12 }
    requires low { LEAST_LIMIT ≤ limit }
    requires high { limit ≤ MOST_LIMIT }
    requires right { AreOffered offers.now }
    ensures ends { EndsBy (IsOffersCause policy limit (Some key) (Offered offers.now) (disk_states D.content D.faults disks.items) (disk_states D.content D.faults result.disks.items))
        (device (K.written sink.old) (K.faults sink.old)) (device (K.written sink.new) (K.faults sink.new)) result.status (records_in result.trail) }
    ensures posted { IsOfNodes result.status result.trail }
    ensures others { KeepsUnused (Some (Run policy limit (Some key))) (IsOffersCause policy limit (Some key) (Offered offers.now) (disk_states D.content D.faults disks.items) (disk_states D.content D.faults result.disks.items))
        disks.items result.disks.items }
    ensures disks_never_fall { EachDisk (λ was is. D.faults was ≤ D.faults is) disks.items result.disks.items }
    ensures never_falls { K.faults sink.old ≤ K.faults sink.new }
{
    let Ok(mut onlookers) = watch(rt, alloc, key) else {
        return without_nodes(alloc, NO_MEMORY, disks);
    };
    let run = run_nodes(
        rt,
        alloc,
        offers.config,
        policy,
        limit,
        &offers.list,
        &mut onlookers,
        disks,
        gate,
    );
    let trail = Trail::of(alloc, run.posted);
    let status = tell_viewed(
        rt,
        alloc,
        &offers.config,
        key,
        run.end,
        trail.records(),
        onlookers,
        sink,
    );
    Ran {
        status,
        trail,
        disks: run.disks,
    }
}

// Runs the nodes of a configuration, and prints how the run ended.
fn run_offers<K: Sink, D: Disk + Send, W: Threads + Wait + Sync, G: Gate + Sync>(
    rt: &W,
    alloc: Global,
    policy: RoundPolicy,
    limit: u32,
    viewed: Option<Key>,
    offers: &Offers,
    sink: &mut K,
    disks: Vec<D>,
    gate: &G,
) -> Ran<D>
    requires twelve { length disks.items ≡ 12 }
    requires low { LEAST_LIMIT ≤ limit }
    requires high { limit ≤ MOST_LIMIT }
    requires right { AreOffered offers.now }
    ensures ends { EndsBy (IsOffersCause policy limit viewed (Offered offers.now) (disk_states D.content D.faults disks.items) (disk_states D.content D.faults result.disks.items))
        (device (K.written sink.old) (K.faults sink.old)) (device (K.written sink.new) (K.faults sink.new)) result.status (records_in result.trail) }
    ensures posted { IsOfNodes result.status result.trail }
    ensures others { KeepsUnused (Some (Run policy limit viewed)) (IsOffersCause policy limit viewed (Offered offers.now) (disk_states D.content D.faults disks.items) (disk_states D.content D.faults result.disks.items))
        disks.items result.disks.items }
    ensures disks_never_fall { EachDisk (λ was is. D.faults was ≤ D.faults is) disks.items result.disks.items }
    ensures never_falls { K.faults sink.old ≤ K.faults sink.new }
{
    match viewed {
        None => run_plainly(rt, alloc, policy, limit, offers, sink, disks, gate),
        Some(key) => run_viewed(rt, alloc, policy, limit, key, offers, sink, disks, gate),
    }
}

// No node runs if the script was not read to its end. Prints its first refused line.
fn refuse<K: Sink, D: Disk>(alloc: Global, why: Unread, sink: &mut K, disks: Vec<D>) -> Ran<D>
    ensures ends { (policy : RoundPolicy) (limit : ℕ) (viewed : Option (List ℕ)) (read : OffersReading) → Reads read (Err why)
        → EndsBy (IsOffersCause policy limit viewed read (disk_states D.content D.faults disks.items) (disk_states D.content D.faults result.disks.items))
        (device (K.written sink.old) (K.faults sink.old)) (device (K.written sink.new) (K.faults sink.new)) result.status (records_in result.trail) }
    ensures posted { IsOfNodes result.status result.trail }
    ensures disks { result.disks.items ≡ disks.items }
    ensures never_falls { K.faults sink.old ≤ K.faults sink.new }
{
    match why {
        Unread::Bad { line, reason } => {
            let text = refusal_text(alloc, line, reason);
            let status = tell_of(sink, text, REFUSED, REFUSED);
            without_nodes(alloc, status, disks)
        }
        Unread::NoMemory => without_nodes(alloc, NO_MEMORY, disks),
    }
}

// Runs the nodes of a script, or prints its first refused line.
fn run_script<K: Sink, D: Disk + Send, W: Threads + Wait + Sync, G: Gate + Sync>(
    rt: &W,
    alloc: Global,
    policy: RoundPolicy,
    limit: u32,
    viewed: Option<Key>,
    script: &[u8],
    sink: &mut K,
    disks: Vec<D>,
    gate: &G,
) -> Ran<D>
    requires twelve { length disks.items ≡ 12 }
    requires low { LEAST_LIMIT ≤ limit }
    requires high { limit ≤ MOST_LIMIT }
    ensures ends { EndsBy (IsOffersCause policy limit viewed (offers_reading script.now) (disk_states D.content D.faults disks.items) (disk_states D.content D.faults result.disks.items))
        (device (K.written sink.old) (K.faults sink.old)) (device (K.written sink.new) (K.faults sink.new)) result.status (records_in result.trail) }
    ensures posted { IsOfNodes result.status result.trail }
    ensures others { KeepsUnused (Some (Run policy limit viewed)) (IsOffersCause policy limit viewed (offers_reading script.now) (disk_states D.content D.faults disks.items) (disk_states D.content D.faults result.disks.items))
        disks.items result.disks.items }
    ensures disks_never_fall { EachDisk (λ was is. D.faults was ≤ D.faults is) disks.items result.disks.items }
    ensures never_falls { K.faults sink.old ≤ K.faults sink.new }
{
    match read_offers(alloc, script) {
        Ok(offers) => run_offers(rt, alloc, policy, limit, viewed, &offers, sink, disks, gate),
        Err(why) => refuse(alloc, why, sink, disks),
    }
}

/// Reads a script of offers, and runs its nodes in threads over logs of this limit. If there is a
/// key, readers view it while the nodes run.
pub(crate) fn read_and_run<
    S: Source,
    K: Sink,
    D: Disk + Send,
    W: Threads + Wait + Sync,
    G: Gate + Sync,
>(
    rt: &W,
    alloc: Global,
    policy: RoundPolicy,
    limit: u32,
    viewed: Option<Key>,
    source: &mut S,
    sink: &mut K,
    disks: Vec<D>,
    gate: &G,
) -> Ran<D>
    requires twelve { length disks.items ≡ 12 }
    requires low { LEAST_LIMIT ≤ limit }
    requires high { limit ≤ MOST_LIMIT }
    ensures ends { EndsBy (IsNodesCause policy limit viewed (device (S.rest source.old) (S.faults source.old)) (device (S.rest source.new) (S.faults source.new)) (disk_states D.content D.faults disks.items) (disk_states D.content D.faults result.disks.items))
        (device (K.written sink.old) (K.faults sink.old)) (device (K.written sink.new) (K.faults sink.new)) result.status (records_in result.trail) }
    ensures posted { IsOfNodes result.status result.trail }
    ensures others { KeepsUnused (Some (Run policy limit viewed)) (IsNodesCause policy limit viewed (device (S.rest source.old) (S.faults source.old)) (device (S.rest source.new) (S.faults source.new)) (disk_states D.content D.faults disks.items) (disk_states D.content D.faults result.disks.items))
        disks.items result.disks.items }
    ensures disks_never_fall { EachDisk (λ was is. D.faults was ≤ D.faults is) disks.items result.disks.items }
    ensures source_never_falls { S.faults source.old ≤ S.faults source.new }
    ensures sink_never_falls { K.faults sink.old ≤ K.faults sink.new }
{
    match read_up_to(alloc, source, MOST_READ) {
        Ok(script) => run_script(rt, alloc, policy, limit, viewed, &script, sink, disks, gate),
        Err(Refused::Failed) => {
            let status = tell(sink, READ_FAULT, UNREAD, UNREAD);
            without_nodes(alloc, status, disks)
        }
        Err(Refused::NoMemory) => without_nodes(alloc, NO_MEMORY, disks),
    }
}
