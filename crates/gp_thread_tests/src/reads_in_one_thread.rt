//! What readers see, one call after another in one thread.
ghost use Rattle.std.specs.Prelude.{◌≡◌, [], All};

use crate::outcome::holds;
use crate::replicas_of_puts::replica_of;
use gp_command::{Key, NoMemory};
use gp_replica::Replica;
use gp_store::{KeyStore, Op};
use gp_views::{Feed, Reader, Unread};
use std::alloc::Global;
use std::process::Abort;
use std::sync::Wait;
use std::test::Fail;

// What two readers of one feed find; only the second is notified.
#[derive(Drop, PartialEq, Eq)]
struct Findings {
    before: bool,
    values: (Option<u64>, Option<u64>),
    absent: Option<u64>,
    after: bool,
    in_order: bool,
    in_order_alone: bool,
    counts: (u64, u64),
}

fn find<R: Wait>(
    rt: &R,
    feed: &mut Feed,
    first: &mut Reader,
    second: &mut Reader,
    replica: &Replica<KeyStore>,
    keys: (Key, Key),
) -> Option<Findings>
    requires { (feed.old.list ≡ []) × (first.old.feed ≡ feed.old.feed)
        × (second.old.feed ≡ feed.old.feed) }
{
    let (key, other) = keys;
    let earlier = first.get(key).ok()?;
    feed.publish(rt, replica).ok()?;
    let told = feed.tell().ok()?;
    let before = second.has_seen(&told);
    let again = feed.tell().ok()?;
    second.learn(told);
    let later = second.get(key).ok()?;
    let absent = second.get(other).ok()?;
    Some(Findings {
        before,
        values: (earlier, later),
        absent,
        after: second.has_seen(&again),
        in_order: first.is_no_later(second),
        in_order_alone: second.is_no_later(second),
        counts: (first.seen(), second.seen()),
    })
}

// What the readers have to find of so many commands, after which a key has this value.
fn wanted(count: u64, value: u64) -> Findings {
    Findings {
        before: false,
        values: (None, Some(value)),
        absent: None,
        after: true,
        in_order: true,
        in_order_alone: true,
        counts: (0, count),
    }
}

#[test]
fn a_reader_sees_what_it_was_told_of(rt: HostRuntime) -> Result<(), Fail> {
    let keys = (Key::new(b"a")?, Key::new(b"b")?);
    let commands = [
        (1, Op::Put(keys.0, 5)),
        (2, Op::Put(keys.1, 6)),
        (3, Op::Del(keys.1)),
        (4, Op::Add(keys.0, 2)),
    ];
    assert!(rt; finds(&rt, rt.alloc(), &commands, keys, 7)?);
    Ok(())
}

// As many commands as a script may offer are published at once.
#[test]
fn a_reader_sees_many_commands(rt: HostRuntime) -> Result<(), Fail> {
    let keys = (Key::new(b"a")?, Key::new(b"b")?);
    holds(&rt, finds_many(&rt, rt.alloc(), keys))
}

fn finds_many(rt: &(impl Wait + Abort), alloc: Global, keys: (Key, Key)) -> Result<bool, Fail> {
    let mut commands = Vec::new(alloc);
    for number in 1..=1_024u32 {
        commands.push((number, Op::Put(keys.0, u64::from(number))))?;
    }
    finds(rt, alloc, &commands, keys, 1_024)
}

// Whether two readers of a new feed find this value after the commands, and nothing of the other
// key.
fn finds(
    rt: &(impl Wait + Abort),
    alloc: Global,
    commands: &[(u32, Op)],
    keys: (Key, Key),
    value: u64,
) -> Result<bool, Fail> {
    let replica = replica_of(rt, alloc, commands)?;
    let wanted = wanted(commands.len() as u64, value);
    Ok(found(rt, alloc, &replica, keys)? == Some(wanted))
}

fn found<R: Wait>(
    rt: &R,
    alloc: Global,
    replica: &Replica<KeyStore>,
    keys: (Key, Key),
) -> Result<Option<Findings>, NoMemory> {
    let (mut feed, mut readers) = Feed::new(rt, alloc, 2)?;
    let found = match readers.pop() {
        Some(first) => find_with(rt, &mut feed, first, &mut readers, replica, keys),
        None => None,
    };
    feed.close(rt);
    Ok(found)
}

// What the first reader finds, and the last of the others.
fn find_with<R: Wait>(
    rt: &R,
    feed: &mut Feed,
    first: Reader,
    others: &mut Vec<Reader>,
    replica: &Replica<KeyStore>,
    keys: (Key, Key),
) -> Option<Findings>
    requires first { (feed.old.list ≡ []) × (first.feed ≡ feed.old.feed) }
    requires others { All (λ r. r.feed ≡ feed.old.feed) others.old.items }
{
    let mut first = first;
    match others.pop() {
        Some(mut second) => find(rt, feed, &mut first, &mut second, replica, keys),
        None => None,
    }
}

#[test]
fn a_reader_of_a_closed_feed_reads_nothing(rt: HostRuntime) -> Result<(), Fail> {
    assert!(rt; reads_nothing(&rt, rt.alloc(), Key::new(b"a")?)?);
    Ok(())
}

fn reads_nothing<R: Wait>(rt: &R, alloc: Global, key: Key) -> Result<bool, Fail> {
    let (feed, readers) = Feed::new(rt, alloc, 16)?;
    feed.close(rt);
    Ok(last_reads_nothing(readers, key))
}

// Whether there are sixteen readers, and the last one reads nothing.
fn last_reads_nothing(mut readers: Vec<Reader>, key: Key) -> bool {
    let many = readers.len() == 16;
    match readers.pop() {
        Some(mut reader) => many && reader.get(key) == Err(Unread) && reader.seen() == 0,
        None => false,
    }
}
