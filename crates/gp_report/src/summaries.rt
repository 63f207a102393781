//! Summaries of runs whose events were drawn.
ghost use Rattle.std.specs.Prelude.{◌≡◌, ◌↔◌, ◌<◌, ◌++◌, length, IsTrue, OnOk, OnErr, IfOk};
ghost use Rattle.gp_run.specs.Messages.{messages};
ghost use Rattle.gp_world.specs.State.{entries_of};
ghost use Rattle.gp_report.specs.Texts.{totals_line};
ghost use Rattle.gp_report.specs.Summaries.{are_alike, sum_of_values, asked_line, counts_line, same_line, sum_line, replicas_summary, summary};

use crate::replicas::replica_of;
use crate::reports::push_totals;
use gp_command::{CommandId, Key, NoMemory};
use gp_history::Hist;
use gp_replica::{Replica, Reply};
use gp_store::KeyStore;
use gp_words::push_number;
use gp_world::World;
use std::alloc::Global;
use std::collections::BTreeMap;

fn hold_the_same(store: &KeyStore, other: &KeyStore) -> bool
    ensures { IsTrue result ↔ (store.now ≡ other.now) }
{
    store.pairs() == other.pairs()
}

fn replied_the_same(replies: &[(CommandId, Reply)], others: &[(CommandId, Reply)]) -> bool
    ensures { IsTrue result ↔ (replies.now ≡ others.now) }
{
    replies == others
}

// Whether the stores of two replicas hold and replied the same.
fn are_alike(replica: &Replica<KeyStore>, other: &Replica<KeyStore>) -> bool
    ensures { result ≡ are_alike replica.now other.now }
{
    let same_pairs = hold_the_same(replica.machine(), other.machine());
    let same_replies = replied_the_same(replica.replies(), other.replies());
    same_pairs && same_replies
}

fn sum_of_values(pairs: &BTreeMap<Key, u64>) -> u64
    ensures { result ≡ sum_of_values pairs.now.entries }
{
    let mut sum: u64 = 0;
    for (_, value) in pairs.iter() {
        sum = sum.wrapping_add(*value);
    }
    sum
}

// Appends what was asked for.
fn push_asked(seed: u64, commands: u32, to: &mut Vec<u8>) -> Result<(), NoMemory>
    ensures { OnOk result (to.new.items ≡ to.old.items ++ asked_line seed commands) }
{
    to.extend_from_slice(b"sim ")?;
    push_number(seed, to)?;
    to.push(b' ')?;
    push_number(u64::from(commands), to)?;
    Ok(to.push(b'\n')?)
}

// Appends how many commands two replicas ran.
fn push_counts(ran: usize, other: usize, to: &mut Vec<u8>) -> Result<(), NoMemory>
    ensures { OnOk result (to.new.items ≡ to.old.items ++ counts_line ran other) }
{
    to.extend_from_slice(b"learned ")?;
    push_number(ran as u64, to)?;
    to.push(b' ')?;
    push_number(other as u64, to)?;
    Ok(to.push(b'\n')?)
}

// Appends whether two replicas hold and replied the same.
fn push_same(alike: bool, to: &mut Vec<u8>) -> Result<(), NoMemory>
    ensures { OnOk result (to.new.items ≡ to.old.items ++ same_line alike) }
{
    if alike {
        to.extend_from_slice(b"same yes\n")?;
    } else {
        to.extend_from_slice(b"same no\n")?;
    }
    Ok(())
}

// Appends the sum of the values that a replica holds.
fn push_sum(sum: u64, to: &mut Vec<u8>) -> Result<(), NoMemory>
    ensures { OnOk result (to.new.items ≡ to.old.items ++ sum_line sum) }
{
    to.extend_from_slice(b"sum ")?;
    push_number(sum, to)?;
    Ok(to.push(b'\n')?)
}

// Appends the lines of two replicas.
fn push_replicas(
    replica: &Replica<KeyStore>,
    other: &Replica<KeyStore>,
    to: &mut Vec<u8>,
) -> Result<(), NoMemory>
    ensures { OnOk result (to.new.items ≡ to.old.items ++ replicas_summary replica.now other.now) }
{
    let alike = are_alike(replica, other);
    push_counts(replica.ran().len(), other.ran().len(), to)?;
    push_same(alike, to)?;
    push_sum(sum_of_values(replica.machine().pairs()), to)
}

// Appends what was asked for, the lines of two replicas and the totals of a world.
fn push_summary(
    seed: u64,
    commands: u32,
    replica: &Replica<KeyStore>,
    other: &Replica<KeyStore>,
    world: &World,
    to: &mut Vec<u8>,
) -> Result<(), NoMemory>
    ensures { OnOk result (to.new.items ≡ to.old.items ++ asked_line seed commands ++ replicas_summary replica.now other.now
        ++ totals_line (length (entries_of world.now)) (length (messages (entries_of world.now)))) }
{
    push_asked(seed, commands, to)?;
    push_replicas(replica, other, to)?;
    push_totals(world, to)
}

#[tactic(auto, unfolding(crate::specs::Summaries::summary))]
fn summary_of(alloc: Global, seed: u64, commands: u32, world: &World) -> Result<Vec<u8>, NoMemory>
    requires { 1 < world.now.config.learners }
    ensures { IfOk result (λ text. text.items ≡ summary seed commands world.now.config (entries_of world.now)) }
{
    let replica = replica_of::<KeyStore>(alloc, world.learned(0))?;
    let other = replica_of::<KeyStore>(alloc, world.learned(1))?;
    let mut text = Vec::new(alloc);
    push_summary(seed, commands, &replica, &other, world, &mut text)?;
    Ok(text)
}

/// Appends the summary of a world with two or more learners, whose events were drawn from a seed
/// for `commands` commands.
///
/// It has five lines: what was asked for; how many commands learner 0 and learner 1 learned;
/// whether key stores that ran what they learned hold and replied the same; the sum of the values
/// that the first one holds, modulo 2^64; and the numbers of events and messages. If memory runs
/// out, `to` stays as it was.
pub fn summary(
    alloc: Global,
    seed: u64,
    commands: u32,
    world: &World,
    to: &mut Vec<u8>,
) -> Result<(), NoMemory>
    requires { 1 < world.now.config.learners }
    ensures written { OnOk result (to.new.items ≡ to.old.items ++ summary seed commands world.now.config (entries_of world.now)) }
    ensures unchanged { OnErr result (to.new.items ≡ to.old.items) }
{
    let text = summary_of(alloc, seed, commands, world)?;
    to.extend_from_slice(&text)?;
    Ok(())
}
