//! Writing the bodies of entries.
ghost use Rattle.std.specs.Prelude.{◌≡◌, ◌++◌, ◌∷◌, [], ◌<◌, ◌^◌, IfOk, OnOk, None, Some, false, length};
ghost use Rattle.std.specs.Int.{w32, to_le_bytes};
ghost use Rattle.std.specs.List.{All, flat_map};
ghost use Rattle.std.specs.Option.{option_copied, option_map};
ghost use Rattle.gp_command.specs.Spelling.{spelling, IsNumbered};
ghost use Rattle.gp_history.specs.Sequence.{history_of};
ghost use Rattle.gp_msg.specs.Messages.{part_of};
ghost use Rattle.gp_vlog.specs.Bodies.{body_of, entry_of, base_for, round_spelling, vote_spelling, acceptor_body, coordinator_body, first_byte, IsReadAgain};
ghost use Rattle.gp_vlog.specs.Prefixes.{is_prefix};
ghost use Rattle.gp_vlog.specs.Logs.{KeepsRules, entry_for};

use crate::votes::additions;
use gp_command::{Command, NoMemory, write_command};
use gp_history::Hist;
use gp_history::walks::common_start;
use gp_index::History;
use gp_msg::Durable;
use gp_round::Round;
use std::alloc::Global;

/// The body for a durable part that follows another one.
pub(crate) fn body_of(
    alloc: Global,
    before: Option<&Durable>,
    entry: &Durable,
) -> Result<Vec<u8>, NoMemory>
    requires { KeepsRules entry.now }
    ensures written { IfOk result (λ body. body.items ≡ body_of (option_map part_of (option_copied before.entry)) (part_of entry.now)) }
    ensures means { IfOk result (λ body. length body.items < 2 ^ 32 → entry_of (option_map (entry_for false) (option_copied before.entry)) body.items ≡ Some (entry_for false entry.now)) }
{
    match entry {
        Durable::Acceptor {
            epoch,
            round,
            voted,
            vote,
        } => {
            let base = base_for(before, *epoch, vote);
            let commands = additions(alloc, base, vote)?;
            acceptor_body(alloc, first_byte(base), *epoch, *round, *voted, &commands)
        }
        Durable::Coordinator { epoch, round } => coordinator_body(alloc, *epoch, *round),
    }
}

fn first_byte(base: Option<&History>) -> u8
    ensures { result ≡ first_byte (option_map history_of (option_copied base.entry)) }
{
    match base {
        Some(_) => 19,
        None => 17,
    }
}

// The vote before, if the new one only adds to it.
fn base_for<'a>(before: Option<&'a Durable>, epoch: u32, vote: &History) -> Option<&'a History>
    ensures { option_map history_of (option_copied result) ≡ base_for (option_map part_of (option_copied before.entry)) epoch (history_of vote.now) }
{
    match before {
        None => None,
        Some(Durable::Coordinator { .. }) => None,
        Some(
            Durable::Acceptor {
                epoch: last,
                vote: base,
                ..
            },
        ) => {
            if *last == epoch && base.len() > 0 && is_prefix(base, vote) {
                Some(base)
            } else {
                None
            }
        }
    }
}

// Whether a vote only adds to another. If the sequence of the one begins that of the other, their
// histories are not compared.
#[tactic(auto, using(crate::proofs::PrefixTests::begins))]
fn is_prefix(h: &History, of: &History) -> bool
    ensures { result ≡ is_prefix (history_of h.now) (history_of of.now) }
{
    if common_start(h, of) >= h.len() {
        return true;
    }
    h.is_prefix(of)
}

fn acceptor_body(
    alloc: Global,
    first: u8,
    epoch: u32,
    round: Round,
    voted: Round,
    commands: &[Command],
) -> Result<Vec<u8>, NoMemory>
    requires { All (λ c. IsNumbered c.id) commands.now }
    ensures written { IfOk result (λ body. body.items ≡ acceptor_body first epoch round voted commands.now) }
    ensures again { OnOk result (All IsReadAgain commands.now) }
{
    let mut to = Vec::new(alloc);
    to.push(first)?;
    to.extend_from_slice(&epoch.to_le_bytes())?;
    push_round(round, &mut to)?;
    push_round(voted, &mut to)?;
    push_commands(commands, &mut to)?;
    Ok(to)
}

fn coordinator_body(alloc: Global, epoch: u32, round: Round) -> Result<Vec<u8>, NoMemory>
    ensures { IfOk result (λ body. body.items ≡ coordinator_body epoch round) }
{
    let mut to = Vec::new(alloc);
    to.push(18)?;
    to.extend_from_slice(&epoch.to_le_bytes())?;
    push_round(round, &mut to)?;
    Ok(to)
}

fn push_round(round: Round, to: &mut Vec<u8>) -> Result<(), NoMemory>
    ensures { OnOk result (to.new.items ≡ to.old.items ++ round_spelling round) }
{
    to.extend_from_slice(&round.count.to_le_bytes())?;
    to.push(round.mode as u8)?;
    to.extend_from_slice(&round.lead.to_le_bytes())?;
    Ok(())
}

// The count in four bytes, and the commands.
fn push_commands(commands: &[Command], to: &mut Vec<u8>) -> Result<(), NoMemory>
    requires { All (λ c. IsNumbered c.id) commands.now }
    ensures written { OnOk result (to.new.items ≡ to.old.items ++ vote_spelling commands.now) }
    ensures again { OnOk result (All IsReadAgain commands.now) }
{
    push_count(commands.len(), to)?;
    for c in commands {
        write_command(c, to)?;
    }
    Ok(())
}

// A count in four bytes.
fn push_count(count: usize, to: &mut Vec<u8>) -> Result<(), NoMemory>
    ensures { OnOk result (to.new.items ≡ to.old.items ++ to_le_bytes w32 count) }
{
    let bytes = (count as u64).to_le_bytes();
    Ok(to.extend_from_slice(&bytes[..4])?)
}
