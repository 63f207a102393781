//! The commands of a workload.
ghost use Rattle.std.specs.Prelude.{◌≡◌, ◌<◌, IfOk};
ghost use Rattle.gp_random.specs.Commands.{numbered_key, drawn_op, op_at, offer_at};

use crate::draws::draw;
use gp_command::{Key, NoMemory, PROPOSERS};
use gp_msg::Event;
use gp_store::{Op, draft_of};
use gp_words::push_number;
use rand_chacha::ChaCha20Rng;
use std::alloc::Global;

/// How many keys the commands have.
const KEYS: u32 = 16;

/// The values that are drawn are below this.
const VALUES: u32 = 1000;

/// Each command whose number is a multiple of this is a checkpoint.
const CHECKPOINT_EVERY: u32 = 32;

// The event that offers command i, counted from 1.
pub(crate) fn offer_at(alloc: Global, i: u32, rng: &mut ChaCha20Rng) -> Result<Event, NoMemory>
    ensures { IfOk result (λ event. (event, rng.new) ≡ offer_at i rng.old) }
{
    let proposer = draw(rng, PROPOSERS);
    let op = op_at(alloc, i, rng)?;
    let draft = draft_of(alloc, op)?;
    Ok(Event::Offer { proposer, draft })
}

fn op_at(alloc: Global, i: u32, rng: &mut ChaCha20Rng) -> Result<Op, NoMemory>
    ensures { IfOk result (λ op. (op, rng.new) ≡ op_at i rng.old) }
{
    if i % CHECKPOINT_EVERY == 0 {
        Ok(Op::Checkpoint)
    } else {
        drawn_op(alloc, rng)
    }
}

fn drawn_op(alloc: Global, rng: &mut ChaCha20Rng) -> Result<Op, NoMemory>
    ensures { IfOk result (λ op. (op, rng.new) ≡ drawn_op rng.old) }
{
    let kind = draw(rng, 8);
    let key = numbered_key(alloc, draw(rng, KEYS))?;
    let value = u64::from(draw(rng, VALUES));
    Ok(match kind {
        0 | 1 => Op::Put(key, value),
        2 | 3 => Op::Add(key, value),
        4 | 5 => Op::Get(key),
        6 => Op::Del(key),
        _ => Op::Cas(key, value, u64::from(draw(rng, VALUES))),
    })
}

// The key `k` followed by this number.
fn numbered_key(alloc: Global, number: u32) -> Result<Key, NoMemory>
    requires { number < 16 }
    ensures { IfOk result (λ key. key ≡ numbered_key number) }
{
    let mut name = Vec::new(alloc);
    name.push(b'k')?;
    push_number(u64::from(number), &mut name)?;
    match Key::new(&name) {
        Ok(key) => Ok(key),
        Err(_) => unreachable!(),
    }
}
