//! The texts that are printed, and the status that goes with each.
ghost use Rattle.std.specs.Prelude.{ℕ, ◌≡◌, ◌≤◌, ◌<◌, List, length, IfOk, IfErr};
ghost use Rattle.gp_cli.specs.Texts.{reason_text, line_text, refusal_text, full_text, broken_text};
ghost use Rattle.gp_cli.specs.Outside.{device, Told};

use crate::status::NO_MEMORY;
use gp_command::NoMemory;
use gp_edge::{Refused, Sink, write_whole};
use gp_script::Reason;
use gp_words::push_number;
use std::alloc::Global;

/// What is printed if the words name no subcommand.
pub const USAGE: &[u8] =
    b"usage: mcgp play | run [LIMIT] | sim SEED COMMANDS | drive A L K | log K | upgrade K | audit | adapt | bank | views KEY\n";

/// What is printed if the source failed.
pub const READ_FAULT: &[u8] = b"read fault\n";

/// What is printed if a disk failed.
pub const DISK_FAULT: &[u8] = b"disk fault\n";

/// What is printed if, after a fault of its disk, the log of a node has neither the durable part
/// from before its last move nor the one from after it, or it has entries of version 1 of the
/// format.
pub const LOG_CHANGED: &[u8] = b"log changed\n";

fn reason_text(reason: Reason) -> &'static [u8]
    ensures { result.now ≡ reason_text reason }
{
    match reason {
        Reason::TooLong => b"too long",
        Reason::NoNodesLine => b"no nodes line",
        Reason::BadLine => b"bad line",
        Reason::BadNumber => b"bad number",
        Reason::BadCount => b"bad count",
        Reason::BadKey => b"bad key",
        Reason::NoNode => b"no node",
        Reason::BadFall => b"bad fall",
        Reason::NoMessage => b"no message",
        Reason::TooManyCommands => b"too many commands",
        Reason::TooManyEvents => b"too many events",
        Reason::NoReport => b"no report",
        Reason::WrongReport => b"wrong report",
    }
}

// The text for a line, by its number from 1, with these words about it.
fn line_text(alloc: Global, line: u64, why: &[u8]) -> Result<Vec<u8>, NoMemory>
    ensures { IfOk result (λ text. text.items ≡ line_text line why.now) }
{
    let mut text = Vec::new(alloc);
    text.extend_from_slice(b"line ")?;
    push_number(line, &mut text)?;
    text.extend_from_slice(b": ")?;
    text.extend_from_slice(why)?;
    text.push(b'\n')?;
    Ok(text)
}

/// What is printed if a line, by its number from 1, is the first that is refused.
pub fn refusal_text(alloc: Global, line: u64, reason: Reason) -> Result<Vec<u8>, NoMemory>
    ensures { IfOk result (λ text. text.items ≡ refusal_text line reason) }
{
    line_text(alloc, line, reason_text(reason))
}

/// What is printed if a log of this size has no room for an entry that needs this much, both in
/// bytes.
pub fn full_text(alloc: Global, size: u64, need: u64) -> Result<Vec<u8>, NoMemory>
    ensures { IfOk result (λ text. text.items ≡ full_text size need) }
{
    let mut text = Vec::new(alloc);
    text.extend_from_slice(b"log full: size ")?;
    push_number(size, &mut text)?;
    text.extend_from_slice(b" need ")?;
    push_number(need, &mut text)?;
    text.push(b'\n')?;
    Ok(text)
}

/// What is printed if the bytes of a disk break the format of a log at this place, counted from 0.
pub fn broken_text(alloc: Global, place: u64) -> Result<Vec<u8>, NoMemory>
    ensures { IfOk result (λ text. text.items ≡ broken_text place) }
{
    let mut text = Vec::new(alloc);
    text.extend_from_slice(b"not a log: at ")?;
    push_number(place, &mut text)?;
    text.push(b'\n')?;
    Ok(text)
}

/// Writes a text, and returns the status as `tell` does. The status is 1 too if there was no memory
/// to make the text.
pub fn tell_of<K: Sink>(
    sink: &mut K,
    text: Result<Vec<u8>, NoMemory>,
    whole: u8,
    at_fault: u8,
) -> u8
    ensures told { IfOk text (λ t. Told (device (K.written sink.old) (K.faults sink.old)) (device (K.written sink.new) (K.faults sink.new))
        t.items whole at_fault result) }
    ensures untold { IfErr text (λ _. (meant : List ℕ) → 0 < length meant → Told (device (K.written sink.old) (K.faults sink.old)) (device (K.written sink.new) (K.faults sink.new))
        meant whole at_fault result) }
    ensures never_falls { K.faults sink.old ≤ K.faults sink.new }
{
    match text {
        Ok(text) => tell(sink, &text, whole, at_fault),
        Err(NoMemory) => NO_MEMORY,
    }
}

/// Writes a text, and returns the status: `whole` if all of it was written, `at_fault` if the sink
/// failed, and 1 if memory ran out in the sink.
pub fn tell<K: Sink>(sink: &mut K, text: &[u8], whole: u8, at_fault: u8) -> u8
    ensures told { Told (device (K.written sink.old) (K.faults sink.old)) (device (K.written sink.new) (K.faults sink.new))
        text.now whole at_fault result }
    ensures never_falls { K.faults sink.old ≤ K.faults sink.new }
{
    match write_whole(sink, text) {
        Ok(()) => whole,
        Err(Refused::Failed) => at_fault,
        Err(Refused::NoMemory) => NO_MEMORY,
    }
}
