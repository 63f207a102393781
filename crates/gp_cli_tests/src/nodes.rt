//! What runs of nodes in threads print.
use crate::stage::served;
use std::alloc::Global;
use std::sync::Wait;
use std::test::Fail;
use std::thread::Threads;

/// What a run of nodes printed before and after the line `--`.
#[derive(Drop)]
pub struct Printed {
    pub trace: Vec<u8>,
    pub report: Vec<u8>,
}

/// Whether a byte is a line feed.
pub fn is_feed(byte: &u8) -> bool {
    *byte == b'\n'
}

// How many bytes the lines before the line `--` have.
fn length_of_trace(text: &[u8]) -> usize {
    let mut length = 0usize;
    for line in text.split(is_feed) {
        if line == b"--".as_slice() {
            return length;
        }
        length = length.saturating_add(line.len()).saturating_add(1);
    }
    length
}

/// The lines before and after the line `--`.
pub fn parts_of(alloc: Global, text: &[u8]) -> Result<Printed, Fail> {
    let length = length_of_trace(text);
    let trace = text.get(..length).unwrap_or(text);
    let report = text.get(length.saturating_add(3)..).unwrap_or(b"");
    Ok(Printed {
        trace: Vec::from_slice(alloc, trace)?,
        report: Vec::from_slice(alloc, report)?,
    })
}

/// How many lines of a text are equal to this one.
pub fn count(text: &[u8], wanted: &[u8]) -> usize {
    text.split(is_feed).filter(|line| *line == wanted).count()
}

/// Whether `play` prints the report of a run from its trace.
pub fn plays_again<W: Threads + Wait + Sync>(
    rt: &W,
    alloc: Global,
    printed: &Printed,
) -> Result<bool, Fail> {
    let played = served(rt, alloc, &["play"], &printed.trace)?;
    Ok(played.ended(0, &printed.report))
}
