//! Whole reads and whole writes, in pieces and with failing calls.
use crate::outcome::holds;
use gp_edge::{
    CalmSink, CalmSource, MemSink, MemSource, ReadSource, Refused, Source, WriteSink, read_up_to,
    write_whole,
};
use std::alloc::Global;
use std::io;
use std::io::{Cursor, ErrorKind, Read};
use std::test::Fail;

type Answer = Result<&'static str, Refused>;

const FAILED: Answer = Err(Refused::Failed);

// Whether reading up to a limit has this result.
fn reads<S: Source>(alloc: Global, source: &mut S, limit: usize, answer: Answer) -> bool {
    match (read_up_to(alloc, source, limit), answer) {
        (Ok(bytes), Ok(text)) => bytes.as_slice() == text.as_bytes(),
        (Err(refused), Err(wanted)) => refused == wanted,
        _ => false,
    }
}

// The most bytes that a call of a source gives, the calls that fail, a limit, and what two reads of
// the bytes `abcde` give: up to the limit, and then to the end.
type TwoReads = (usize, &'static [u64], usize, Answer, Answer);

static TO_THE_END_OR_TO_THE_LIMIT: [TwoReads; 7] = [
    (1, &[], 100, Ok("abcde"), Ok("")),
    (9, &[], 6, Ok("abcde"), Ok("")),
    (9, &[], 5, Ok("abcde"), Ok("")),
    (9, &[], 4, Ok("abcd"), Ok("e")),
    (2, &[], 3, Ok("abc"), Ok("de")),
    (1, &[], 4, Ok("abcd"), Ok("e")),
    (9, &[], 0, Ok(""), Ok("abcde")),
];

// Calls 0 to 2 give `ab`, `cd` and `e`, and call 3 the end.
static EACH_READ_FAILS: [TwoReads; 5] = [
    (2, &[0], 100, FAILED, Ok("abcde")),
    (2, &[1], 100, FAILED, Ok("cde")),
    (2, &[2], 100, FAILED, Ok("e")),
    (2, &[3], 100, FAILED, Ok("")),
    (2, &[4], 100, Ok("abcde"), FAILED),
];

// If the limit is reached, there is no call for the end.
static AT_THE_LIMIT: [TwoReads; 3] = [
    (9, &[1], 5, Ok("abcde"), FAILED),
    (9, &[1], 6, FAILED, Ok("")),
    (9, &[0], 0, Ok(""), FAILED),
];

#[test]
fn a_source_is_read_to_its_end_or_to_the_limit(rt: HostRuntime) -> Result<(), Fail> {
    holds(&rt, are_read(rt.alloc(), &TO_THE_END_OR_TO_THE_LIMIT))
}

#[test]
fn each_read_may_fail(rt: HostRuntime) -> Result<(), Fail> {
    holds(&rt, are_read(rt.alloc(), &EACH_READ_FAILS))
}

#[test]
fn no_read_follows_the_limit(rt: HostRuntime) -> Result<(), Fail> {
    holds(&rt, are_read(rt.alloc(), &AT_THE_LIMIT))
}

fn are_read(alloc: Global, rows: &[TwoReads]) -> Result<bool, Fail> {
    for row in rows {
        if !reads_twice(alloc, row)? {
            return Ok(false);
        }
    }
    Ok(true)
}

fn reads_twice(alloc: Global, row: &TwoReads) -> Result<bool, Fail> {
    let (piece, failing, limit, first, then) = *row;
    if piece == 0 {
        return Ok(false);
    }
    let mut source = MemSource::new(alloc, b"abcde", piece, failing)?;
    Ok(reads(alloc, &mut source, limit, first) && reads(alloc, &mut source, 100, then))
}

#[test]
fn a_calm_source_is_read_in_more_than_one_piece(rt: HostRuntime) -> Result<(), Fail> {
    let mut source = CalmSource::new(rt.alloc(), &SEVENS)?;
    holds(&rt, Ok(is_read_in_two_pieces(rt.alloc(), &mut source)))
}

static SEVENS: [u8; 10_000] = [7; 10_000];

fn is_read_in_two_pieces(alloc: Global, source: &mut CalmSource) -> bool {
    let is_read = match read_up_to(alloc, source, 9_999) {
        Ok(bytes) => bytes.as_slice() == &SEVENS[..9_999],
        Err(_) => false,
    };
    is_read && reads(alloc, source, 9_999, Ok("\u{7}"))
}

// A reader that fails.
#[derive(Drop)]
struct Broken;

impl Read for Broken {
    fn read(&mut self, _buf: &mut [u8]) -> io::Result<usize> {
        Err(io::Error::from(ErrorKind::BrokenPipe))
    }
}

#[test]
fn a_broken_reader_is_a_failed_read(rt: HostRuntime) -> Result<(), Fail> {
    let mut source = ReadSource::new(Broken);
    assert!(rt; reads(rt.alloc(), &mut source, 9, FAILED));
    assert!(rt; source.faults() == 1);
    Ok(())
}

// The most bytes that a call takes, the calls that fail, the result of writing `abcde`, and what the
// sink then holds.
type Row = (usize, &'static [u64], Result<(), Refused>, &'static str);

static IN_PIECES: [Row; 3] = [
    (1, &[], Ok(()), "abcde"),
    (2, &[], Ok(()), "abcde"),
    (9, &[], Ok(()), "abcde"),
];

// Calls 0 to 2 take `ab`, `cd` and `e`, and there is no call 3.
static EACH_WRITE_FAILS: [Row; 4] = [
    (2, &[0], Err(Refused::Failed), ""),
    (2, &[1], Err(Refused::Failed), "ab"),
    (2, &[2], Err(Refused::Failed), "abcd"),
    (2, &[3], Ok(()), "abcde"),
];

#[test]
fn a_text_is_written_in_pieces(rt: HostRuntime) -> Result<(), Fail> {
    holds(&rt, are_written(rt.alloc(), &IN_PIECES))
}

#[test]
fn each_write_may_fail(rt: HostRuntime) -> Result<(), Fail> {
    holds(&rt, are_written(rt.alloc(), &EACH_WRITE_FAILS))
}

fn are_written(alloc: Global, rows: &[Row]) -> Result<bool, Fail> {
    for row in rows {
        if !writes(alloc, row)? {
            return Ok(false);
        }
    }
    Ok(true)
}

fn writes(alloc: Global, row: &Row) -> Result<bool, Fail> {
    let (piece, failing, answer, written) = *row;
    if piece == 0 {
        return Ok(false);
    }
    let mut sink = MemSink::new(alloc, piece, failing)?;
    Ok(write_whole(&mut sink, b"abcde") == answer && sink.written() == written.as_bytes())
}

#[test]
fn an_empty_text_makes_no_call(rt: HostRuntime) -> Result<(), Fail> {
    let mut sink = MemSink::new(rt.alloc(), 9, &[0])?;
    let is_written = write_whole(&mut sink, b"") == Ok(());
    holds(
        &rt,
        Ok(is_written && write_whole(&mut sink, b"a") == Err(Refused::Failed)),
    )
}

#[test]
fn a_text_stands_behind_what_was_written(rt: HostRuntime) -> Result<(), Fail> {
    let mut sink = CalmSink::new(rt.alloc())?;
    let are_written = write_whole(&mut sink, b"ab").is_ok()
        && write_whole(&mut sink, b"cde").is_ok();
    holds(
        &rt,
        Ok(are_written && sink.written() == b"abcde".as_slice()),
    )
}

#[test]
fn a_sink_that_takes_no_more_has_failed(rt: HostRuntime) -> Result<(), Fail> {
    assert!(rt; are_answered(&mut WriteSink::new(Cursor::new([0u8; 10])), &TEN_AND_ONE));
    assert!(rt; are_answered(&mut WriteSink::new(Cursor::new([0u8; 10])), &ELEVEN));
    Ok(())
}

// A text that is written to a sink, the answer, and how many faults there are then.
type Written = (&'static str, Result<(), Refused>, u64);

static TEN_AND_ONE: [Written; 3] = [
    ("0123456", Ok(()), 0),
    ("789", Ok(()), 0),
    ("x", Err(Refused::Failed), 1),
];

static ELEVEN: [Written; 1] = [("0123456789x", Err(Refused::Failed), 1)];

fn are_answered(sink: &mut WriteSink<Cursor<[u8; 10]>>, rows: &[Written]) -> bool {
    for (text, answer, faults) in rows {
        if write_whole(sink, text.as_bytes()) != *answer || sink.faults() != *faults {
            return false;
        }
    }
    true
}
