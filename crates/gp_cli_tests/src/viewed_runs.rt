//! Nodes that run in threads while two readers view a key.
use crate::nodes::{count, is_feed, parts_of};
use crate::stage::served;
use std::alloc::Global;
use std::sync::Wait;
use std::test::Fail;
use std::thread::Threads;

// Five puts at the key `a`, in the order of their values.
const PUTS: &[u8] =
    b"nodes 3 2 1\noffer p0 put a 1\noffer p0 put a 2\noffer p0 put a 3\noffer p0 put a 4\noffer p0 put a 5\n";

// Three checkpoints part the puts at the key `a`, so that they are learned in four epochs.
const EPOCHS: &[u8] =
    b"nodes 3 2 1\noffer p0 put a 1\noffer p0 checkpoint\noffer p0 put a 2\noffer p0 checkpoint\noffer p0 put a 3\noffer p0 checkpoint\noffer p0 put a 4\n";

// What a read of reader 0 or 1 shows after the number of the reader, by how many of the puts it
// saw.
static LOOKS: [&[u8]; 6] = [
    b" seen 0 value none",
    b" seen 1 value 1",
    b" seen 2 value 2",
    b" seen 3 value 3",
    b" seen 4 value 4",
    b" seen 5 value 5",
];

// How many puts are made.
const MADE: usize = 5;

const RUNS: usize = 5;

// The lines of the readers in a run of this script that ended with all learned.
fn looks_of<W: Threads + Wait + Sync>(
    rt: &W,
    alloc: Global,
    script: &[u8],
) -> Result<Vec<u8>, Fail> {
    let outcome = served(rt, alloc, &["views", "a"], script)?;
    if outcome.status == 0 {
        looks_in(alloc, &outcome.text)
    } else {
        Err(Fail::from("not all is learned"))
    }
}

fn looks_in(alloc: Global, text: &[u8]) -> Result<Vec<u8>, Fail> {
    let whole = parts_of(alloc, text)?;
    let behind = parts_of(alloc, &whole.report)?;
    Ok(behind.report)
}

// How many reads are printed that begin with these bytes.
fn reads_of(looks: &[u8], begin: &[u8]) -> usize {
    looks
        .split(is_feed)
        .filter(|line| line.starts_with(begin))
        .count()
}

// How many of the puts a read saw that shows this, if any shows it.
fn puts_seen(shown: &[u8]) -> Option<usize> {
    for seen in 0..LOOKS.len() {
        if LOOKS[seen] == shown {
            return Some(seen);
        }
    }
    None
}

// Whether each read of a reader shows a beginning of the puts, none a shorter one than the read before it, and the last one
// shows all.
fn are_right(looks: &[u8], reader: &[u8]) -> bool {
    let mut before = 0;
    for line in looks.split(is_feed) {
        if let Some(shown) = line.strip_prefix(reader) {
            match puts_seen(shown) {
                Some(seen) if seen >= before => before = seen,
                _ => return false,
            }
        }
    }
    before == MADE
}

// A reader reads at least once while the nodes work, and once after that.
#[test]
fn each_reader_reads_while_the_nodes_work(rt: HostRuntime) -> Result<(), Fail> {
    let looks = looks_of(&rt, rt.alloc(), PUTS)?;
    assert!(rt; reads_of(&looks, b"r0 ") >= 2 && reads_of(&looks, b"r1 ") >= 2);
    Ok(())
}

// How many reads of a reader show some of what is learned.
fn reads_beyond(looks: &[u8], reader: &[u8], nothing: &[u8]) -> usize {
    reads_of(looks, reader).saturating_sub(reads_of(looks, nothing))
}

// Whether both readers see some of what is learned before their last reads.
fn sees_some(looks: &[u8]) -> bool {
    reads_beyond(looks, b"r0 ", b"r0 seen 0") >= 2 && reads_beyond(looks, b"r1 ", b"r1 seen 0") >= 2
}

// What was learned is published while the nodes work in a later epoch. So each reader sees some of it before its last read.
#[test]
fn what_was_learned_is_published_while_the_nodes_work(rt: HostRuntime) -> Result<(), Fail> {
    let looks = looks_of(&rt, rt.alloc(), EPOCHS)?;
    assert!(rt; sees_some(&looks));
    Ok(())
}

// Whether the order is that of the puts, and the reads of both readers show beginnings of it.
fn shows_beginnings(looks: &[u8]) -> bool {
    count(looks, b"order: p0.1 p0.2 p0.3 p0.4 p0.5") == 1
        && are_right(looks, b"r0")
        && are_right(looks, b"r1")
}

#[test]
fn each_read_shows_a_beginning_of_the_order(rt: HostRuntime) -> Result<(), Fail> {
    for _ in 0..RUNS {
        let looks = looks_of(&rt, rt.alloc(), PUTS)?;
        assert!(rt; shows_beginnings(&looks));
    }
    Ok(())
}
