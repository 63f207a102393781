//! Sources and sinks, call by call.
use crate::outcome::holds;
use gp_edge::{
    CalmSink, CalmSource, Failed, MemSink, MemSource, ReadSource, Refused, Sink, Source, WriteSink,
    write_whole,
};
use std::alloc::Global;
use std::io;
use std::io::{Cursor, ErrorKind, Read, Write};
use std::test::Fail;

// A reader that fails.
#[derive(Drop)]
struct Broken;

impl Read for Broken {
    fn read(&mut self, _buf: &mut [u8]) -> io::Result<usize> {
        Err(io::Error::from(ErrorKind::BrokenPipe))
    }
}

// A reader and writer that fails only at its first call. It is at its end, and takes all.
#[derive(Drop)]
struct Hesitant {
    has_failed: bool,
}

impl Read for Hesitant {
    fn read(&mut self, _buf: &mut [u8]) -> io::Result<usize> {
        if self.has_failed {
            return Ok(0);
        }
        self.has_failed = true;
        Err(io::Error::from(ErrorKind::Interrupted))
    }
}

impl Write for Hesitant {
    fn write(&mut self, buf: &[u8]) -> io::Result<usize> {
        if self.has_failed {
            return Ok(buf.len());
        }
        self.has_failed = true;
        Err(io::Error::from(ErrorKind::Interrupted))
    }

    fn flush(&mut self) -> io::Result<()> {
        Ok(())
    }
}

// A reader and writer that moves nothing at its first call, and then one byte at each call.
#[derive(Drop)]
struct Slow {
    has_begun: bool,
}

impl Read for Slow {
    fn read(&mut self, buf: &mut [u8]) -> io::Result<usize> {
        let has_begun = self.has_begun;
        self.has_begun = true;
        match buf.first_mut() {
            Some(byte) if has_begun => {
                *byte = b'x';
                Ok(1)
            }
            _ => Ok(0),
        }
    }
}

impl Write for Slow {
    fn write(&mut self, buf: &[u8]) -> io::Result<usize> {
        let most = if self.has_begun { 1 } else { 0 };
        self.has_begun = true;
        Ok(buf.len().min(most))
    }

    fn flush(&mut self) -> io::Result<()> {
        Ok(())
    }
}

// Whether a read into three bytes has this result, and the three bytes are then these.
fn reads<S: Source>(source: &mut S, answer: Result<usize, Failed>, bytes: &[u8; 3]) -> bool {
    let mut piece = *b"---";
    source.read(&mut piece) == answer && piece == *bytes
}

#[test]
fn a_source_loses_no_byte_at_a_failure(rt: HostRuntime) -> Result<(), Fail> {
    let mut source = MemSource::new(rt.alloc(), b"abcde", 2, &[1])?;
    holds(&rt, Ok(loses_no_byte(&mut source)))
}

// Call 1 of the source fails.
fn loses_no_byte(source: &mut MemSource) -> bool {
    reads(source, Ok(2), b"ab-")
        && reads(source, Err(Failed), b"---")
        && reads(source, Ok(2), b"cd-")
        && reads(source, Ok(1), b"e--")
        && reads(source, Ok(0), b"---")
}

#[test]
fn a_calm_source_fills_each_piece(rt: HostRuntime) -> Result<(), Fail> {
    let mut source = CalmSource::new(rt.alloc(), b"abcde")?;
    holds(&rt, Ok(fills_each_piece(&mut source)))
}

fn fills_each_piece(source: &mut CalmSource) -> bool {
    reads(source, Ok(3), b"abc") && reads(source, Ok(2), b"de-") && reads(source, Ok(0), b"---")
}

#[test]
fn a_sink_writes_nothing_at_a_failure(rt: HostRuntime) -> Result<(), Fail> {
    let mut sink = MemSink::new(rt.alloc(), 2, &[1])?;
    holds(&rt, Ok(writes_nothing_at_a_failure(&mut sink)))
}

// Call 1 of the sink fails.
fn writes_nothing_at_a_failure(sink: &mut MemSink) -> bool {
    sink.write(b"abc") == Ok(2)
        && sink.write(b"c") == Err(Refused::Failed)
        && sink.write(b"c") == Ok(1)
        && sink.written() == b"abc".as_slice()
}

#[test]
fn a_calm_sink_takes_whole_pieces(rt: HostRuntime) -> Result<(), Fail> {
    let mut sink = CalmSink::new(rt.alloc())?;
    holds(&rt, Ok(takes_whole_pieces(&mut sink)))
}

fn takes_whole_pieces(sink: &mut CalmSink) -> bool {
    sink.write(b"abc") == Ok(3)
        && sink.write(b"de") == Ok(2)
        && sink.written() == b"abcde".as_slice()
}

#[test]
fn a_source_over_a_reader_counts_its_failures(rt: HostRuntime) -> Result<(), Fail> {
    assert!(rt; counts_none(&mut ReadSource::new(Cursor::new(*b"abcd"))));
    assert!(rt; counts_one(&mut ReadSource::new(Broken)));
    Ok(())
}

fn counts_none(source: &mut ReadSource<Cursor<[u8; 4]>>) -> bool {
    reads(source, Ok(3), b"abc")
        && reads(source, Ok(1), b"d--")
        && reads(source, Ok(0), b"---")
        && source.faults() == 0
}

fn counts_one(source: &mut ReadSource<Broken>) -> bool {
    reads(source, Err(Failed), b"---") && source.faults() == 1
}

#[test]
fn a_failed_read_is_not_tried_again(rt: HostRuntime) -> Result<(), Fail> {
    assert!(rt; reads_once(&mut ReadSource::new(Hesitant { has_failed: false })));
    Ok(())
}

fn reads_once(source: &mut ReadSource<Hesitant>) -> bool {
    let failed = reads(source, Err(Failed), b"---") && source.faults() == 1;
    failed && reads(source, Ok(0), b"---") && source.faults() == 1
}

#[test]
fn a_failed_write_is_not_tried_again(rt: HostRuntime) -> Result<(), Fail> {
    assert!(rt; writes_once(&mut WriteSink::new(Hesitant { has_failed: false })));
    Ok(())
}

fn writes_once(sink: &mut WriteSink<Hesitant>) -> bool {
    let failed = sink.write(b"ab") == Err(Refused::Failed) && sink.faults() == 1;
    failed && sink.write(b"ab") == Ok(2) && sink.faults() == 1
}

#[test]
fn a_read_asks_the_reader_once(rt: HostRuntime) -> Result<(), Fail> {
    assert!(rt; asks_the_reader_once(&mut ReadSource::new(Slow { has_begun: false })));
    Ok(())
}

fn asks_the_reader_once(source: &mut ReadSource<Slow>) -> bool {
    reads(source, Ok(0), b"---")
        && reads(source, Ok(1), b"x--")
        && reads(source, Ok(1), b"x--")
        && source.faults() == 0
}

#[test]
fn a_write_asks_the_writer_once(rt: HostRuntime) -> Result<(), Fail> {
    assert!(rt; asks_the_writer_once(&mut WriteSink::new(Slow { has_begun: false })));
    Ok(())
}

fn asks_the_writer_once(sink: &mut WriteSink<Slow>) -> bool {
    let failed = sink.write(b"ab") == Ok(0) && sink.faults() == 1;
    let taken = sink.write(b"ab") == Ok(1) && sink.write(b"ab") == Ok(1);
    failed && taken && sink.faults() == 1
}

#[test]
fn a_sink_over_a_writer_counts_writes_that_take_nothing(rt: HostRuntime) -> Result<(), Fail> {
    assert!(rt; counts_a_full_writer(&mut WriteSink::new(Cursor::new([0u8; 3]))));
    Ok(())
}

fn counts_a_full_writer(sink: &mut WriteSink<Cursor<[u8; 3]>>) -> bool {
    let taken = sink.write(b"ab") == Ok(2) && sink.write(b"cd") == Ok(1);
    let empty = sink.write(b"") == Ok(0) && sink.faults() == 0;
    taken && empty && sink.write(b"d") == Ok(0) && sink.faults() == 1
}

// Whether a sink takes this text whole, in pieces of any size.
fn takes_all<K: Sink>(sink: &mut K, text: &[u8]) -> bool {
    write_whole(sink, text).is_ok()
}

// Three million bytes.
fn long_text(alloc: Global) -> Result<Vec<u8>, Fail> {
    let mut text = Vec::new(alloc);
    for number in 0..3_000_000u32 {
        text.push((number % 251) as u8)?;
    }
    Ok(text)
}

fn take_long_texts(alloc: Global) -> Result<bool, Fail> {
    let text = long_text(alloc)?;
    let mut calm = CalmSink::new(alloc)?;
    let mut pieces = MemSink::new(alloc, 4_096, &[])?;
    let taken = takes_all(&mut calm, &text) && takes_all(&mut pieces, &text);
    Ok(taken && calm.written() == text.as_slice() && pieces.written() == text.as_slice())
}

#[test]
fn sinks_in_memory_take_long_texts(rt: HostRuntime) -> Result<(), Fail> {
    holds(&rt, take_long_texts(rt.alloc()))
}
