//! Runs a file of cases.
use crate::cases::Cases;
use crate::fault::Fault;
use crate::subject::Subject;
use std::alloc::Global;
use std::fs;
use std::io::{self, ErrorKind};
use std::rt::Files;
use std::sync::Wait;
use std::thread::Threads;

/// Runs the cases of a file, with `threads` for the nodes of a subject. Prints each difference with
/// its file and line, and then `NAME: N cases, M wrong`.
///
/// An error if the file is not there, if it has no case, or if a line of it is unknown or out of
/// place; what is wrong is printed first.
pub fn run_file<R: Print + Files + Alloc, W: Threads + Wait + Sync, S: Subject>(
    rt: &R,
    threads: &W,
    alloc: Global,
    path: &str,
    subject: &mut S,
) -> io::Result<()> {
    match fs::read(rt, path) {
        Ok(bytes) => run_bytes(rt, threads, alloc, last_part(path), &bytes, subject),
        Err(refused) => {
            println!(rt; "{path}: not read")?;
            Err(refused)
        }
    }
}

fn run_bytes<R: Print, W: Threads + Wait + Sync, S: Subject>(
    rt: &R,
    threads: &W,
    alloc: Global,
    name: &str,
    bytes: &[u8],
    subject: &mut S,
) -> io::Result<()> {
    let mut cases = Cases::new(alloc);
    run_lines(rt, threads, name, bytes, subject, &mut cases)?;
    let (count, wrong) = (cases.count, cases.wrong);
    println!(rt; "{name}: {count} cases, {wrong} wrong")?;
    if count == 0 {
        return Err(io::Error::from(ErrorKind::InvalidData));
    }
    Ok(())
}

fn run_lines<R: Print, W: Threads + Wait + Sync, S: Subject>(
    rt: &R,
    threads: &W,
    name: &str,
    bytes: &[u8],
    subject: &mut S,
    cases: &mut Cases,
) -> io::Result<()> {
    for line in bytes.split(|byte| *byte == b'\n') {
        let found = cases.line(threads, subject, line);
        tell(rt, name, cases.at, found)?;
    }
    let found = cases.close();
    tell(rt, name, cases.at, found)
}

// Prints what was found at a line.
fn tell<R: Print>(
    rt: &R,
    name: &str,
    number: usize,
    found: Result<Option<String>, Fault>,
) -> io::Result<()> {
    match found {
        Ok(None) => Ok(()),
        Ok(Some(wrong)) => {
            let wrong = wrong.as_str();
            println!(rt; "{name}:{number}: {wrong}")
        }
        Err(Fault::Unread) => {
            println!(rt; "{name}:{number}: not a line of a case")?;
            Err(io::Error::from(ErrorKind::InvalidData))
        }
        Err(Fault::NoMemory) => Err(io::Error::from(ErrorKind::OutOfMemory)),
    }
}

// What follows the last slash of a path.
fn last_part(path: &str) -> &str {
    match path.rfind('/') {
        Some(place) => match path.get(place.saturating_add(1)..) {
            Some(name) => name,
            None => path,
        },
        None => path,
    }
}

/// The name of a file of cases, without its folder and without `.txt`. It says the subject.
pub fn stem(path: &str) -> &str {
    let name = last_part(path);
    match name.strip_suffix(".txt") {
        Some(stem) => stem,
        None => name,
    }
}
