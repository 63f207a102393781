//! Eight readers and one writer, each in a thread of its own.
ghost use Rattle.std.specs.Prelude.{◌≡◌, ◌<◌, [], OnOk, length};

use crate::replicas_of_puts::{catch_up, learn};
use crossbeam_utils::Backoff;
use gp_command::Key;
use gp_history::Hist;
use gp_index::History;
use gp_replica::Replica;
use gp_store::{KeyStore, Op};
use gp_views::{Feed, Reader};
use std::alloc::Global;
use std::process::Abort;
use std::sync::Wait;
use std::test::Fail;
use std::thread;
use std::thread::Threads;

const READERS: u32 = 8;

// The number of publishes of each feed.
const PUBLISHES: u32 = 100;

const FEEDS: u32 = 5;

// The number of reads of a reader, unless it has seen all before.
const READS: u32 = 2_000;

// A reader, and whether all that it read was right.
#[derive(Drop)]
struct Watcher {
    reader: Reader,
    right: bool,
}

// After the first n commands, which put 1, 2 and so on at the key, the value is n.
fn value_after(seen: u64) -> Option<u64> {
    if seen == 0 { None } else { Some(seen) }
}

// Reads once. A read is right if its value is the one after the commands that were seen, and no
// fewer were seen than before.
fn look(watcher: &mut Watcher, key: Key) {
    let before = watcher.reader.seen();
    let value = watcher.reader.get(key);
    let seen = watcher.reader.seen();
    if value != Ok(value_after(seen)) || seen < before {
        watcher.right = false;
    }
}

// Between two reads it yields the processor, so that the writer seldom waits for a reader that is not running.
fn watch(watcher: &mut Watcher, key: Key) {
    let backoff = Backoff::new();
    for _ in 0..READS {
        look(watcher, key);
        backoff.snooze();
        if watcher.reader.seen() == u64::from(PUBLISHES) {
            return;
        }
    }
}

// Has the replica run one command more, and publishes it.
fn publish_next<R: Wait + Abort>(
    rt: &R,
    alloc: Global,
    feed: &mut Feed,
    replica: &mut Replica<KeyStore>,
    learned: &mut History,
    command: (u32, Key),
) -> Result<usize, Fail>
    requires { feed.old.list ≡ replica.old }
    ensures { OnOk result (feed.new.list ≡ replica.new) }
{
    let (number, key) = command;
    learn(learned, alloc, number, Op::Put(key, u64::from(number)))?;
    catch_up(rt, replica, learned)?;
    Ok(feed.publish(rt, replica)?)
}

// Publishes one command after another. Returns whether each publish was of one.
fn publish_all<R: Wait + Abort>(
    rt: &R,
    alloc: Global,
    feed: &mut Feed,
    key: Key,
) -> Result<bool, Fail>
    requires { feed.old.list ≡ [] }
{
    let mut learned = History::empty(alloc)?;
    let mut replica = Replica::new(alloc)?;
    let mut each_one = true;
    for before in 0..PUBLISHES {
        let count = publish_next(
            rt,
            alloc,
            feed,
            &mut replica,
            &mut learned,
            (before + 1, key),
        )?;
        each_one = each_one && count == 1;
    }
    Ok(each_one)
}

// Each reader reads in a thread of its own.
fn watch_all<R: Threads + Wait + Sync>(rt: &R, watchers: &mut [Watcher], key: Key) {
    thread::for_each_mut(
        rt,
        watchers,
        READERS as usize,
        &|_, watcher| watch(watcher, key),
    );
}

fn watchers(alloc: Global, readers: Vec<Reader>) -> Result<Vec<Watcher>, Fail> {
    let mut watchers = Vec::new(alloc);
    for reader in readers {
        watchers.push(Watcher {
            reader,
            right: true,
        })?;
    }
    Ok(watchers)
}

// Whether all that was read was right, and each reader sees all after the writer is done.
fn are_right(watchers: &mut [Watcher], key: Key) -> bool {
    let mut right = true;
    for watcher in watchers {
        look(watcher, key);
        right = right && watcher.right && watcher.reader.seen() == u64::from(PUBLISHES);
    }
    right
}

// Publishes while all watchers read.
fn publish_beside<R: Threads + Wait + Abort + Sync>(
    rt: &R,
    alloc: Global,
    feed: &mut Feed,
    watchers: &mut [Watcher],
    key: Key,
) -> Result<bool, Fail>
    requires { feed.old.list ≡ [] }
{
    let (published, ()) = thread::join(
        rt,
        ||
            requires { feed.now.list ≡ [] }
        { publish_all(rt, alloc, feed, key) },
        || watch_all(rt, watchers, key),
    );
    published
}

fn watched<R: Threads + Wait + Abort + Sync>(
    rt: &R,
    alloc: Global,
    key: Key,
) -> Result<bool, Fail> {
    let (mut feed, readers) = Feed::new(rt, alloc, READERS)?;
    let watched = match watchers(alloc, readers) {
        Ok(mut watchers) => match publish_beside(
            rt,
            alloc,
            &mut feed,
            watchers.as_mut_slice(),
            key,
        ) {
            Ok(each_one) => Ok(are_right(watchers.as_mut_slice(), key) && each_one),
            Err(fail) => Err(fail),
        },
        Err(fail) => Err(fail),
    };
    feed.close(rt);
    watched
}

#[test]
fn every_read_is_of_a_beginning_that_was_published(rt: HostRuntime) -> Result<(), Fail> {
    let alloc = rt.alloc();
    let key = Key::new(b"a")?;
    for _ in 0..FEEDS {
        assert!(rt; watched(&rt, alloc, key)?);
    }
    Ok(())
}
