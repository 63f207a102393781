//! The text of a log: how many entries it has, and a line for each.
ghost use Rattle.std.specs.Prelude.{◌≡◌, ◌++◌, length, map, OnOk, OnErr, IfOk};
ghost use Rattle.gp_history.specs.Sequence.{history_of};
ghost use Rattle.gp_msg.specs.Messages.{part_of};
ghost use Rattle.gp_words.specs.Beginnings.{AppendsBeginning};
ghost use Rattle.gp_text.specs.Logs.{dotted_round, place_words, vote_words, part_line, head_line, log_text};

use crate::traces::push_mode;
use gp_command::NoMemory;
use gp_edge::Disk;
use gp_index::History;
use gp_msg::Durable;
use gp_report::identities;
use gp_round::Round;
use gp_vlog::Log;
use gp_words::push_number;
use std::alloc::Global;

/// Appends a round as `COUNT.MODE.LEAD`. If memory runs out, `to` may hold the beginning of this
/// text.
pub fn push_dotted(round: Round, to: &mut Vec<u8>) -> Result<(), NoMemory>
    ensures written { OnOk result (to.new.items ≡ to.old.items ++ dotted_round round) }
    ensures begun { OnErr result (AppendsBeginning to.old.items to.new.items (dotted_round round)) }
{
    push_number(u64::from(round.count), to)?;
    to.push(b'.')?;
    push_mode(round.mode, to)?;
    to.push(b'.')?;
    push_number(u64::from(round.lead), to)
}

// A kind of node, its epoch and its round.
fn push_place(kind: &[u8], epoch: u32, round: Round, to: &mut Vec<u8>) -> Result<(), NoMemory>
    ensures { OnOk result (to.new.items ≡ to.old.items ++ place_words kind.now epoch round) }
{
    to.extend_from_slice(kind)?;
    to.extend_from_slice(b" epoch ")?;
    push_number(u64::from(epoch), to)?;
    to.push(b' ')?;
    push_dotted(round, to)
}

// A vote, and the round that it was cast in.
fn push_vote(alloc: Global, voted: Round, vote: &History, to: &mut Vec<u8>) -> Result<(), NoMemory>
    ensures { OnOk result (to.new.items ≡ to.old.items ++ vote_words voted (history_of vote.now)) }
{
    to.extend_from_slice(b" voted ")?;
    push_dotted(voted, to)?;
    to.extend_from_slice(b": ")?;
    identities(alloc, vote, to)
}

fn push_entry(alloc: Global, entry: &Durable, to: &mut Vec<u8>) -> Result<(), NoMemory>
    ensures { OnOk result (to.new.items ≡ to.old.items ++ part_line (part_of entry.now)) }
{
    match entry {
        Durable::Acceptor {
            epoch,
            round,
            voted,
            vote,
        } => {
            push_place(b"acceptor", *epoch, *round, to)?;
            push_vote(alloc, *voted, vote, to)?;
        }
        Durable::Coordinator { epoch, round } => push_place(b"coordinator", *epoch, *round, to)?,
    }
    Ok(to.push(b'\n')?)
}

// The first line.
fn push_head<D: Disk>(number: u32, log: &Log<D>, to: &mut Vec<u8>) -> Result<(), NoMemory>
    ensures { OnOk result (to.new.items ≡ to.old.items ++ head_line number (length log.now.entries) log.now.size) }
{
    to.extend_from_slice(b"log ")?;
    push_number(u64::from(number), to)?;
    to.extend_from_slice(b" entries ")?;
    push_number(log.count() as u64, to)?;
    to.extend_from_slice(b" size ")?;
    push_number(log.size(), to)?;
    Ok(to.push(b'\n')?)
}

fn text_of_log<D: Disk>(alloc: Global, number: u32, log: &Log<D>) -> Result<Vec<u8>, NoMemory>
    ensures { IfOk result (λ text. text.items ≡ log_text number (map part_of log.now.entries) log.now.size) }
{
    let mut text = Vec::new(alloc);
    push_head(number, log, &mut text)?;
    for i in 0..log.count() {
        push_entry(alloc, log.entry(i), &mut text)?;
    }
    Ok(text)
}

/// Appends the text of the log with this number: a line with the number of entries and the size in
/// bytes, and then one line for each entry, the oldest first.
///
/// An acceptor's line has its epoch, its round, the round of its last vote, and the identities of
/// that vote in canonical order. A coordinator's line has its epoch and its round. If memory runs
/// out, `to` stays as it was.
pub fn log_text<D: Disk>(
    alloc: Global,
    number: u32,
    log: &Log<D>,
    to: &mut Vec<u8>,
) -> Result<(), NoMemory>
    ensures written { OnOk result (to.new.items ≡ to.old.items ++ log_text number (map part_of log.now.entries) log.now.size) }
    ensures unchanged { OnErr result (to.new.items ≡ to.old.items) }
{
    let text = text_of_log(alloc, number, log)?;
    to.extend_from_slice(&text)?;
    Ok(())
}
