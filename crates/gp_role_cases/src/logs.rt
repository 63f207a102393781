//! Logs: what bytes open to, and what appends and renewals leave.
use crate::commands::put;
use crate::torn_logs::torn;
use gp_cases::{Fault, Request, Subject, Words, bytes_of_text, durable_of, durable_text};
use gp_edge::CalmDisk;
use gp_msg::Durable;
use gp_vlog::{AppendFault, Log, OpenFault, keeps_rules};
use std::alloc::Global;
use std::sync::Wait;
use std::thread::Threads;

/// A file has one log at a time, or the bytes of one.
#[derive(Drop)]
pub struct Logs {
    log: Option<Log<CalmDisk>>,
    bytes: Vec<u8>,
}

impl Logs {
    pub fn new(alloc: Global) -> Logs {
        Logs {
            log: None,
            bytes: Vec::new(alloc),
        }
    }

    fn create(&mut self, alloc: Global, mut words: Words<'_>) -> Result<String, Fault> {
        let log = created(alloc, words.next_number()?)?;
        let text = log_text(alloc, &log)?;
        self.log = Some(log);
        Ok(text)
    }

    // Takes these bytes for those of the file.
    fn take_bytes(&mut self, alloc: Global, input: &[u8]) -> Result<String, Fault> {
        self.bytes = bytes_of_text(alloc, input)?;
        let len = self.bytes.len();
        Ok(format!(in alloc; "{len} bytes")?)
    }

    // Takes the disk of the log. Its bytes are those of the file then.
    fn take_disk(&mut self, alloc: Global) -> Result<String, Fault> {
        let Some(log) = self.log.take() else {
            return Err(Fault::Unread);
        };
        let disk = log.into_disk();
        self.bytes.clear();
        self.bytes.extend_from_slice(disk.content())?;
        let len = self.bytes.len();
        Ok(format!(in alloc; "{len} bytes")?)
    }

    // Opens a log of the bytes.
    fn open_bytes(&mut self, alloc: Global) -> Result<String, Fault> {
        match Log::open(alloc, CalmDisk::new(alloc, &self.bytes)?) {
            Ok(log) => {
                let text = log_text(alloc, &log)?;
                self.log = Some(log);
                Ok(text)
            }
            Err(unopened) => fault_text(alloc, unopened.why),
        }
    }

    fn byte(&self, alloc: Global, mut words: Words<'_>) -> Result<String, Fault> {
        let byte = byte_at(&self.bytes, words.next_size()?)?;
        Ok(format!(in alloc; "{byte}")?)
    }

    // What the bytes open to if they are changed as the words say.
    fn probe(&self, alloc: Global, words: Words<'_>) -> Result<String, Fault> {
        let mut bytes = self.bytes.clone()?;
        changed(&mut bytes, words)?;
        opened_text(alloc, &opens(alloc, &bytes)?)
    }

    // Whether the bytes are those of the input lines.
    fn compare(&self, alloc: Global, input: &[u8]) -> Result<String, Fault> {
        let given = bytes_of_text(alloc, input)?;
        if given == self.bytes {
            return Ok(String::from_str(alloc, "as given")?);
        }
        let alike = alike(&self.bytes, &given);
        Ok(format!(in alloc; "other at {alike}")?)
    }

    // What a command on the bytes gives, or one on the log.
    fn text_of(
        &mut self,
        alloc: Global,
        request: Request<'_>,
        name: &str,
        words: Words<'_>,
    ) -> Result<String, Fault> {
        match name {
            "probe" => self.probe(alloc, words),
            "compare" => self.compare(alloc, request.input),
            "byte" => self.byte(alloc, words),
            "torn" => torn(alloc, request.letters, &self.bytes, words),
            _ => match &mut self.log {
                Some(log) => call(alloc, request, log, name, words),
                None => Err(Fault::Unread),
            },
        }
    }
}

// How many bytes at the beginning are the same.
fn alike(one: &[u8], other: &[u8]) -> usize {
    let mut alike = 0usize;
    for (a, b) in one.iter().zip(other) {
        if *a != *b {
            return alike;
        }
        alike = alike.saturating_add(1);
    }
    alike
}

impl Subject for Logs {
    fn answer<W: Threads + Wait + Sync>(
        &mut self,
        _threads: &W,
        alloc: Global,
        request: Request<'_>,
    ) -> Result<String, Fault> {
        let mut words = request.words();
        match words.name()? {
            "create" => self.create(alloc, words),
            "bytes" => self.take_bytes(alloc, request.input),
            "open" => self.open_bytes(alloc),
            "disk" => self.take_disk(alloc),
            "change" => {
                change(&mut self.bytes, words)?;
                Ok(String::new(alloc))
            }
            "limit" => {
                set_limit(&mut self.bytes, words)?;
                Ok(String::new(alloc))
            }
            name => self.text_of(alloc, request, name, words),
        }
    }
}

fn created(alloc: Global, limit: u32) -> Result<Log<CalmDisk>, Fault> {
    if limit < 64 || 67_108_864 < limit {
        return Err(Fault::Unread);
    }
    match Log::create(alloc, CalmDisk::new(alloc, b"what was there")?, limit) {
        Ok(log) => Ok(log),
        Err(_) => Err(Fault::NoMemory),
    }
}

// The state of the log after a call on it, or why the call was refused.
fn call(
    alloc: Global,
    request: Request<'_>,
    log: &mut Log<CalmDisk>,
    name: &str,
    words: Words<'_>,
) -> Result<String, Fault> {
    match name {
        "append" => appended(alloc, request, log, words, false),
        "renew" => appended(alloc, request, log, words, true),
        "entry" => entry(alloc, request, log, words),
        "state" => log_text(alloc, log),
        "reopen" => match log.reopen() {
            Ok(()) => log_text(alloc, log),
            Err(why) => fault_text(alloc, why),
        },
        _ => Err(Fault::Unread),
    }
}

fn appended(
    alloc: Global,
    request: Request<'_>,
    log: &mut Log<CalmDisk>,
    words: Words<'_>,
    renews: bool,
) -> Result<String, Fault> {
    let part = durable_of(alloc, request.letters, words)?;
    match append(log, &part, renews)? {
        Ok(()) => log_text(alloc, log),
        Err(AppendFault::Full { size, need }) => {
            let text = log_text(alloc, log)?;
            Ok(format!(in alloc; "full at {size} for {need}: {text}")?)
        }
        Err(_) => Err(Fault::NoMemory),
    }
}

/// Appends a part to a log, or renews the log with it. `Unread` if the log does not take it.
pub fn append(
    log: &mut Log<CalmDisk>,
    part: &Durable,
    renews: bool,
) -> Result<Result<(), AppendFault>, Fault> {
    if !log.is_ready() || !keeps_rules(part) {
        return Err(Fault::Unread);
    }
    if renews {
        return Ok(log.renew(part));
    }
    if log.is_old() {
        return Err(Fault::Unread);
    }
    Ok(log.append(part))
}

fn entry(
    alloc: Global,
    request: Request<'_>,
    log: &Log<CalmDisk>,
    mut words: Words<'_>,
) -> Result<String, Fault> {
    let place = words.next_size()?;
    words.end()?;
    if place >= log.count() {
        return Err(Fault::Unread);
    }
    durable_text(alloc, request.letters, log.entry(place))
}

/// What bytes open to: the number of entries and the size, or why they are no log.
pub type Opens = Result<(usize, u64), OpenFault>;

/// What these bytes open to.
pub fn opens(alloc: Global, bytes: &[u8]) -> Result<Opens, Fault> {
    match Log::open(alloc, CalmDisk::new(alloc, bytes)?) {
        Ok(log) => Ok(Ok((log.count(), log.size()))),
        Err(unopened) => Ok(Err(unopened.why)),
    }
}

/// The text of what bytes open to.
pub fn opened_text(alloc: Global, opens: &Opens) -> Result<String, Fault> {
    match opens {
        Ok((count, size)) => Ok(format!(in alloc; "{count} entries in {size} bytes")?),
        Err(why) => fault_text(alloc, *why),
    }
}

fn fault_text(alloc: Global, why: OpenFault) -> Result<String, Fault> {
    match why {
        OpenFault::NotLog { at } => Ok(format!(in alloc; "broken at {at}")?),
        OpenFault::Disk => Ok(String::from_str(alloc, "the disk failed")?),
        OpenFault::NoMemory => Err(Fault::NoMemory),
    }
}

/// The number of entries of a log and its size.
pub fn log_text(alloc: Global, log: &Log<CalmDisk>) -> Result<String, Fault> {
    let (count, size) = (log.count(), log.size());
    let old = if log.is_old() { ", old" } else { "" };
    let ready = if log.is_ready() { "" } else { ", not ready" };
    Ok(format!(in alloc; "{count} entries in {size} bytes{old}{ready}")?)
}

// Changes bytes as the words say.
fn changed(bytes: &mut Vec<u8>, mut words: Words<'_>) -> Result<(), Fault> {
    match words.name()? {
        "first" => cut(bytes, words),
        "with" => change(bytes, words),
        "limit" => set_limit(bytes, words),
        "swapped" => swap(bytes, words),
        _ => Err(Fault::Unread),
    }
}

fn cut(bytes: &mut Vec<u8>, mut words: Words<'_>) -> Result<(), Fault> {
    let len = words.next_size()?;
    if len > bytes.len() {
        return Err(Fault::Unread);
    }
    bytes.truncate(len);
    Ok(())
}

// Puts a byte at a place, both given by words.
fn change(bytes: &mut Vec<u8>, mut words: Words<'_>) -> Result<(), Fault> {
    let place = words.next_size()?;
    let value = words.next_byte()?;
    words.end()?;
    put(bytes, place, value)
}

fn set_limit(bytes: &mut Vec<u8>, mut words: Words<'_>) -> Result<(), Fault> {
    let [first, second, third, fourth] = words.next_number()?.to_le_bytes();
    put(bytes, 8, first)?;
    put(bytes, 9, second)?;
    put(bytes, 10, third)?;
    put(bytes, 11, fourth)
}

// Swaps so many bytes at two places.
fn swap(bytes: &mut Vec<u8>, mut words: Words<'_>) -> Result<(), Fault> {
    let a = words.next_size()?;
    let b = words.next_size()?;
    let count = words.next_size()?;
    words.end()?;
    for i in 0..count {
        swap_two(bytes, a.saturating_add(i), b.saturating_add(i))?;
    }
    Ok(())
}

fn swap_two(bytes: &mut Vec<u8>, a: usize, b: usize) -> Result<(), Fault> {
    let (first, second) = (byte_at(bytes, a)?, byte_at(bytes, b)?);
    put(bytes, a, second)?;
    put(bytes, b, first)
}

fn byte_at(bytes: &[u8], place: usize) -> Result<u8, Fault> {
    match bytes.get(place) {
        Some(byte) => Ok(*byte),
        None => Err(Fault::Unread),
    }
}
