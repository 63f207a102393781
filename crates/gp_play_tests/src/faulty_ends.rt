//! Sources and sinks that fail.
use crate::stage::{holds, play_over, plays_from};
use gp_edge::{CalmSource, MemSink, MemSource, Source, WriteSink};
use std::alloc::Global;
use std::io::Cursor;
use std::sync::Wait;
use std::test::Fail;
use std::thread::Threads;

// one put in a single round, which one learner hears
const ONE_PUT: &[u8] = b"\
nodes 3 1 2
offer p0 put a 5
begin c0 1 single
take c0 0
take a0 1
take a1 1
take c0 2
take c0 3
take a0 4
take a1 4
take l0 5
take l0 6
";

const ONE_PUT_PRINTS: &[u8] = b"\
l0 learned 1: p0.1
l0 state: a=5
l0 replies: p0.1=ok
l1 learned 0: -
l1 state: -
l1 replies: -
events 11 messages 7
";

// what three of four acceptors voted in a fast round is chosen, and a round without one of them keeps it
const FOUR_ACCEPTORS_CHOSEN_PREFIX: &[u8] = b"\
nodes 4 1 1
begin c0 1 fast
take a0 0
take a1 0
take a2 0
take a3 0
take c0 1
take c0 2
take c0 3
take a0 5
take a1 5
take a2 5
take a3 5
offer p0 put a 1
offer p1 put a 2
take a0 10
take a1 10
take a2 10
take a3 11
take a3 10
take l0 12
take l0 13
take l0 14
show l0
take c0 11
begin c0 2 single
take a1 17
take a2 17
take a3 17
take c0 18
take c0 19
take c0 20
take a1 21
take a2 21
take a3 21
take l0 22
take l0 23
take l0 24
";

const FOUR_ACCEPTORS_CHOSEN_PREFIX_PRINTS: &[u8] = b"\
l0 learned 1: p0.1
l0 learned 2: p0.1 p1.1
l0 state: a=2
l0 replies: p0.1=ok p1.1=ok
events 36 messages 25
";

// A script, and what it prints.
type Played = (&'static [u8], &'static [u8]);

/// The most bytes that a write takes, and the writes that fail.
#[derive(Clone, Copy)]
struct Faulty<'a> {
    piece: usize,
    failing: &'a [u64],
}

// Whether `play` ends with this status over a source, and this is written to such a sink then.
fn ends<S: Source>(
    rt: &(impl Threads + Wait + Sync),
    alloc: Global,
    source: &mut S,
    faulty: &Faulty,
    status: u8,
    written: &[u8],
) -> Result<bool, Fail> {
    if faulty.piece == 0 {
        return Ok(false);
    }
    let mut sink = MemSink::new(alloc, faulty.piece, faulty.failing)?;
    let ended = play_over(rt, alloc, source, &mut sink)?;
    Ok(ended == status && sink.written() == written)
}

// How many reads of 64 bytes a script takes, with the one that finds its end.
fn reads_of(script: &[u8]) -> u64 {
    let whole = script.len() as u64 / 64;
    if script.len() % 64 == 0 {
        whole + 1
    } else {
        whole + 2
    }
}

// Whether a failure of the n-th read, each of 64 bytes, ends in a read fault.
fn read_fails(
    rt: &(impl Threads + Wait + Sync),
    alloc: Global,
    script: &[u8],
    n: u64,
) -> Result<bool, Fail> {
    let mut source = MemSource::new(alloc, script, 64, &[n])?;
    plays_from(rt, alloc, &mut source, 4, b"read fault\n")
}

// Whether no other read comes than those of the pieces, and one at the end.
fn each_read_fails(rt: &(impl Threads + Wait + Sync), alloc: Global) -> Result<bool, Fail> {
    for (script, prints) in &SCRIPTS {
        let reads = reads_of(script);
        for n in 0..reads {
            if !read_fails(rt, alloc, script, n)? {
                return Ok(false);
            }
        }
        let mut source = MemSource::new(alloc, script, 64, &[reads])?;
        if !plays_from(rt, alloc, &mut source, 0, prints)? {
            return Ok(false);
        }
    }
    Ok(true)
}

#[test]
fn each_read_may_fail(rt: HostRuntime) -> Result<(), Fail> {
    holds(&rt, each_read_fails(&rt, rt.alloc()))
}

// Whether a failure of the n-th write, each of 16 bytes, ends so: a write fault after what was
// written before, or, if no such write comes, well.
fn write_fails(
    rt: &(impl Threads + Wait + Sync),
    alloc: Global,
    row: &Played,
    n: usize,
) -> Result<bool, Fail> {
    let (script, prints) = *row;
    let mut source = CalmSource::new(alloc, script)?;
    let faulty = Faulty {
        piece: 16,
        failing: &[n as u64],
    };
    match prints.get(..n.saturating_mul(16)) {
        Some(written) if written.len() < prints.len() => {
            ends(rt, alloc, &mut source, &faulty, 5, written)
        }
        _ => ends(rt, alloc, &mut source, &faulty, 0, prints),
    }
}

fn each_write_fails(rt: &(impl Threads + Wait + Sync), alloc: Global) -> Result<bool, Fail> {
    for row in &SCRIPTS {
        for n in 0..row.1.len() {
            if !write_fails(rt, alloc, row, n)? {
                return Ok(false);
            }
        }
    }
    Ok(true)
}

#[test]
fn each_write_may_fail(rt: HostRuntime) -> Result<(), Fail> {
    holds(&rt, each_write_fails(&rt, rt.alloc()))
}

// Whether a script prints this if each read and each write is of one byte.
fn prints_in_pieces(
    rt: &(impl Threads + Wait + Sync),
    alloc: Global,
    script: &[u8],
    prints: &[u8],
) -> Result<bool, Fail> {
    let mut source = MemSource::new(alloc, script, 1, &[])?;
    let whole = Faulty {
        piece: 1,
        failing: &[],
    };
    ends(rt, alloc, &mut source, &whole, 0, prints)
}

static SCRIPTS: [Played; 2] = [
    (ONE_PUT, ONE_PUT_PRINTS),
    (
        FOUR_ACCEPTORS_CHOSEN_PREFIX,
        FOUR_ACCEPTORS_CHOSEN_PREFIX_PRINTS,
    ),
];

fn all_print_in_pieces(rt: &(impl Threads + Wait + Sync), alloc: Global) -> Result<bool, Fail> {
    for (script, prints) in &SCRIPTS {
        if !prints_in_pieces(rt, alloc, script, prints)? {
            return Ok(false);
        }
    }
    Ok(true)
}

#[test]
fn pieces_may_be_of_one_byte(rt: HostRuntime) -> Result<(), Fail> {
    holds(&rt, all_print_in_pieces(&rt, rt.alloc()))
}

// The status with which `play` ends if its sink has this room alone.
fn status_in(
    rt: &(impl Threads + Wait + Sync),
    alloc: Global,
    room: &mut [u8],
) -> Result<u8, Fail> {
    let mut source = CalmSource::new(alloc, ONE_PUT)?;
    let mut sink = WriteSink::new(Cursor::new(room));
    play_over(rt, alloc, &mut source, &mut sink)
}

#[test]
fn a_sink_that_takes_nothing_more_is_a_write_fault(rt: HostRuntime) -> Result<(), Fail> {
    let mut room = [0u8; 10];
    let status = status_in(&rt, rt.alloc(), room.as_mut_slice())?;
    assert!(rt; status == 5);
    assert!(rt; room == *b"l0 learned");
    Ok(())
}

// Whether a refusal has its own status if its second write fails.
fn refusal_keeps_its_status(
    rt: &(impl Threads + Wait + Sync),
    alloc: Global,
) -> Result<bool, Fail> {
    let mut source = CalmSource::new(alloc, b"")?;
    let faulty = Faulty {
        piece: 5,
        failing: &[1],
    };
    ends(rt, alloc, &mut source, &faulty, 3, b"line ")
}

// Whether a read fault has its own status if each write fails too.
fn read_fault_keeps_its_status(
    rt: &(impl Threads + Wait + Sync),
    alloc: Global,
) -> Result<bool, Fail> {
    let mut source = MemSource::new(alloc, b"", 1, &[0])?;
    let faulty = Faulty {
        piece: 5,
        failing: &[0],
    };
    ends(rt, alloc, &mut source, &faulty, 4, b"")
}

#[test]
fn a_write_fault_leaves_the_status_of_a_refusal(rt: HostRuntime) -> Result<(), Fail> {
    holds(&rt, refusal_keeps_its_status(&rt, rt.alloc()))?;
    holds(&rt, read_fault_keeps_its_status(&rt, rt.alloc()))
}
