//! A publish that is refused, and then one of another sequence. Run it also with each allocation
//! failing in turn.
ghost use Rattle.std.specs.Prelude.{◌≡◌, []};

use crate::replicas_of_puts::replica_of;
use gp_command::{Key, NoMemory};
use gp_replica::Replica;
use gp_store::{KeyStore, Op};
use gp_views::{Feed, Reader};
use std::alloc::Global;
use std::process::Abort;
use std::sync::Wait;
use std::test::Fail;

// Whether the first publish succeeded, and how many commands were published.
type Published = (bool, usize);

// What was published, and what a reader saw after it: how many commands, and the value.
type Seen = (Published, (u64, Option<u64>));

// Publishes what the first has run, and if that is refused, what the second has run.
fn publish_one<R: Wait>(
    rt: &R,
    feed: &mut Feed,
    first: &Replica<KeyStore>,
    second: &Replica<KeyStore>,
) -> Option<Published>
    requires { feed.old.list ≡ [] }
    ensures { feed.new.feed ≡ feed.old.feed }
{
    match feed.publish(rt, first) {
        Ok(count) => Some((true, count)),
        Err(_) => {
            let count = feed.publish(rt, second).ok()?;
            Some((false, count))
        }
    }
}

// What a reader sees after it was notified.
fn read_told(feed: &mut Feed, reader: &mut Reader, key: Key) -> Option<(u64, Option<u64>)>
    requires { reader.old.feed ≡ feed.old.feed }
{
    reader.learn(feed.tell().ok()?);
    let value = reader.get(key).ok()?;
    Some((reader.seen(), value))
}

fn publish_and_read<R: Wait>(
    rt: &R,
    feed: &mut Feed,
    reader: &mut Reader,
    replicas: (&Replica<KeyStore>, &Replica<KeyStore>),
    key: Key,
) -> Option<Seen>
    requires { (feed.old.list ≡ []) × (reader.old.feed ≡ feed.old.feed) }
{
    let (first, second) = replicas;
    let published = publish_one(rt, feed, first, second)?;
    let read = read_told(feed, reader, key)?;
    Some((published, read))
}

// What a reader of a new feed sees of the two.
fn see<R: Wait>(
    rt: &R,
    alloc: Global,
    replicas: (&Replica<KeyStore>, &Replica<KeyStore>),
    key: Key,
) -> Result<Option<Seen>, NoMemory> {
    let (mut feed, mut readers) = Feed::new(rt, alloc, 2)?;
    let seen = match readers.pop() {
        Some(mut reader) => publish_and_read(rt, &mut feed, &mut reader, replicas, key),
        None => None,
    };
    feed.close(rt);
    Ok(seen)
}

// Additions to one key: a command that is run twice, or one of the other sequence, changes the sum.
#[test]
fn a_refused_publish_leaves_nothing_behind(rt: HostRuntime) -> Result<(), Fail> {
    let alloc = rt.alloc();
    let key = Key::new(b"a")?;
    let adds = [
        (1, Op::Add(key, 1)),
        (2, Op::Add(key, 2)),
        (3, Op::Add(key, 4)),
    ];
    let others = [(4, Op::Add(key, 8)), (5, Op::Add(key, 16))];
    assert!(rt; sees_one(&rt, alloc, &adds, &others, key)?);
    Ok(())
}

// Whether a reader sees either the sum of the three or that of the two others.
fn sees_one(
    rt: &(impl Wait + Abort),
    alloc: Global,
    adds: &[(u32, Op)],
    others: &[(u32, Op)],
    key: Key,
) -> Result<bool, Fail> {
    let first = replica_of(rt, alloc, adds)?;
    sees_beside(rt, alloc, &first, others, key)
}

fn sees_beside(
    rt: &(impl Wait + Abort),
    alloc: Global,
    first: &Replica<KeyStore>,
    others: &[(u32, Op)],
    key: Key,
) -> Result<bool, Fail> {
    let second = replica_of(rt, alloc, others)?;
    is_seen(rt, alloc, (first, &second), key)
}

fn is_seen(
    rt: &impl Wait,
    alloc: Global,
    replicas: (&Replica<KeyStore>, &Replica<KeyStore>),
    key: Key,
) -> Result<bool, Fail> {
    let seen = see(rt, alloc, replicas, key)?.ok_or(NoMemory)?;
    Ok(seen == ((true, 3), (3, Some(7))) || seen == ((false, 2), (2, Some(24))))
}
