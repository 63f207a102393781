//! A reader's thread that is held between two reads, until another thread has published and
//! notified it.
ghost use Rattle.std.specs.Prelude.{◌≡◌, []};
ghost use Rattle.gp_thread_tests.specs.Names.{no_feed};

use crate::outcome::holds;
use crate::replicas_of_puts::replica_of;
use crossbeam_channel::{Receiver, Sender, unbounded};
use gp_command::Key;
use gp_replica::Replica;
use gp_store::{KeyStore, Op};
use gp_views::{Feed, Reader, Told};
use std::alloc::Global;
use std::marker::{Brand, PhantomData};
use std::process::Abort;
use std::sync::Wait;
use std::test::Fail;
use std::thread;
use std::thread::Threads;

/// Names one feed.
pub trait Named {
    ghost use Rattle.logbook.specs.Pages.{Book};

    ghost feed: { Book };
}

impl Named for Brand {
    ghost feed = { no_feed };
}

/// A note of that feed.
#[derive(Drop)]
pub struct Note<N: Named> {
    told: Told,
    of: PhantomData<N>,
    ghost named: { told.feed ≡ N.feed },
}

/// How many commands a reader had seen, and the value that it read.
type Read = (u64, Option<u64>);

// Reads, says so, waits for a note, learns it and reads again.
fn read_twice<N: Named, R: Wait>(
    rt: &R,
    reader: &mut Reader,
    key: Key,
    done: &Sender<()>,
    notes: &Receiver<Note<N>>,
) -> Option<(Read, Read)>
    requires { reader.old.feed ≡ N.feed }
{
    let first = read(reader, key)?;
    done.send(rt, ()).ok()?;
    let Note { told, of: _ } = notes.recv(rt).ok()?;
    reader.learn(told);
    Some((first, read(reader, key)?))
}

fn read(reader: &mut Reader, key: Key) -> Option<Read>
    ensures { reader.new.feed ≡ reader.old.feed }
{
    let value = reader.get(key).ok()?;
    Some((reader.seen(), value))
}

// Waits for the first read.
fn wait_for<R: Wait>(rt: &R, done: Receiver<()>) -> Option<()> {
    done.recv(rt).ok()
}

// Waits for the first read, publishes, and sends a note of it.
fn publish_between<N: Named, R: Wait>(
    rt: &R,
    feed: &mut Feed,
    replica: &Replica<KeyStore>,
    done: Receiver<()>,
    notes: Sender<Note<N>>,
) -> Option<usize>
    requires { (feed.old.feed ≡ N.feed) × (feed.old.list ≡ []) }
{
    wait_for(rt, done)?;
    let count = feed.publish(rt, replica).ok()?;
    let told = feed.tell().ok()?;
    let note = Note {
        told,
        of: PhantomData,
    };
    notes.send(rt, note).ok()?;
    Some(count)
}

fn held<N: Named + Send + Sync, R: Threads + Wait + Sync>(
    rt: &R,
    alloc: Global,
    feed: &mut Feed,
    reader: Reader,
    replica: &Replica<KeyStore>,
    key: Key,
) -> Option<((Read, Read), usize)>
    requires { (feed.old.feed ≡ N.feed) × (feed.old.list ≡ []) × (reader.feed ≡ N.feed) }
{
    let (done, waits_for_read) = unbounded::<(), Global>(alloc).ok()?;
    let (notes, waits_for_note) = unbounded::<Note<N>, Global>(alloc).ok()?;
    let (reads, count) = thread::join(
        rt,
        move ||
            requires { reader.feed ≡ N.feed }
        {
            let mut reader = reader;
            read_twice::<N, R>(rt, &mut reader, key, &done, &waits_for_note)
        },
        move ||
            requires { (feed.now.feed ≡ N.feed) × (feed.now.list ≡ []) }
        { publish_between::<N, R>(rt, feed, replica, waits_for_read, notes) },
    );
    Some((reads?, count?))
}

#[test]
fn a_held_reader_sees_what_it_was_told_of(rt: HostRuntime) -> Result<(), Fail> {
    holds(&rt, is_told(&rt, rt.alloc()))
}

fn is_told(rt: &(impl Threads + Wait + Abort + Sync), alloc: Global) -> Result<bool, Fail> {
    let key = Key::new(b"a")?;
    let replica = replica_of(rt, alloc, &[(1, Op::Put(key, 5))])?;
    is_held(rt, alloc, &replica, key)
}

fn is_held<R: Threads + Wait + Sync>(
    rt: &R,
    alloc: Global,
    replica: &Replica<KeyStore>,
    key: Key,
) -> Result<bool, Fail> {
    let (mut feed, mut readers) = Feed::new(rt, alloc, 1)?;
    let seen = match readers.pop() {
        Some(reader) => held::<Brand, R>(rt, alloc, &mut feed, reader, replica, key),
        None => None,
    };
    feed.close(rt);
    Ok(seen == Some((((0, None), (1, Some(5))), 1)))
}
