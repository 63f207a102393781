//! What is seen of a key along the order in which a replica ran what was learned.
ghost use Rattle.std.specs.Prelude.{◌≡◌};
ghost use Rattle.gp_phase.specs.Beside.{topics};
ghost use Rattle.gp_onlookers.specs.Ends.{topic_of};

use crate::puts::{A, B, Put, history};
use gp_command::{CommandId, Key, NoMemory};
use gp_index::History;
use gp_onlookers::{Look, Looks, Onlookers, last_looks, watch};
use std::alloc::Global;
use std::sync::Wait;
use std::test::Fail;
use std::thread::{Threads, join_mut};

// What is put, one after another, and the value of the key `a` then.
type Row = (&'static [Put], Option<u64>);

static ROWS: [Row; 4] = [
    (&[], None),
    (&[(1, A, 5), (2, B, 6), (3, A, 7)], Some(7)),
    (&[(1, B, 5), (2, B, 6)], None),
    (&[(2, A, 5), (4, B, 6)], Some(5)),
];

// Nothing was published yet.
const NOTHING_SEEN: Look = Look {
    seen: 0,
    value: None,
};

// One put was published.
const LAST_LOOK: Look = Look {
    seen: 1,
    value: Some(5),
};

// Both look once, each in a thread of its own.
fn look_at_once<R: Threads + Wait + Sync>(rt: &R, onlookers: &mut Onlookers) -> bool
    ensures { topics (λ p. p.feed) topic_of onlookers.new ≡ topics (λ p. p.feed) topic_of onlookers.old }
{
    let first = &mut onlookers.first;
    let second = &mut onlookers.second;
    let (first, second) = join_mut(rt, &mut || first.look(rt), &mut || second.look(rt));
    first.is_ok() && second.is_ok()
}

// Looks once before anything is published, and a last time after all that was learned.
fn looks_at<R: Threads + Wait + Sync>(
    rt: &R,
    alloc: Global,
    learned: &History,
) -> Result<(bool, Result<Looks, NoMemory>), Fail> {
    let key = Key::new(A)?;
    let mut onlookers = watch(rt, alloc, key)?;
    let looked = look_at_once(rt, &mut onlookers);
    Ok((looked, last_looks(rt, alloc, key, onlookers, learned)))
}

// Whether the commands of an order are those of the puts.
fn is_order_of(order: &[CommandId], puts: &[Put]) -> bool {
    if order.len() != puts.len() {
        return false;
    }
    for i in 0..order.len() {
        if order[i].number != puts[i].0 {
            return false;
        }
    }
    true
}

// Whether a reader looked before anything was published and after all.
fn are_first_and_last(looks: &[Look], last: Look) -> bool {
    looks.len() == 2 && looks[0] == NOTHING_SEEN && looks[1] == last
}

// Whether both looked so, and the order is that of the puts.
fn is_seen(looks: &Looks, row: &Row) -> bool {
    let (puts, value) = *row;
    let seen = puts.len() as u64;
    let last = Look { seen, value };
    is_order_of(&looks.order, puts)
        && are_first_and_last(&looks.first, last)
        && are_first_and_last(&looks.second, last)
}

fn sees<R: Threads + Wait + Sync>(rt: &R, alloc: Global, row: &Row) -> Result<bool, Fail> {
    let learned = history(alloc, row.0)?;
    let (looked, looks) = looks_at(rt, alloc, &learned)?;
    Ok(looked && is_seen(&looks?, row))
}

#[test]
fn the_last_look_is_at_the_end_of_the_order(rt: HostRuntime) -> Result<(), Fail> {
    for row in &ROWS {
        assert!(rt; sees(&rt, rt.alloc(), row)?);
    }
    Ok(())
}

// Only the first looks, twice.
fn look_twice<R: Wait>(rt: &R, onlookers: &mut Onlookers) -> bool
    ensures { topics (λ p. p.feed) topic_of onlookers.new ≡ topics (λ p. p.feed) topic_of onlookers.old }
{
    let once = onlookers.first.look(rt);
    let twice = onlookers.first.look(rt);
    once.is_ok() && twice.is_ok()
}

// Whether both look right if the first looks twice before anything is published, and then both look
// a last time.
fn look_apart<R: Threads + Wait + Sync>(
    rt: &R,
    alloc: Global,
    learned: &History,
) -> Result<bool, Fail> {
    let key = Key::new(A)?;
    let mut onlookers = watch(rt, alloc, key)?;
    let looked = look_twice(rt, &mut onlookers);
    let looks = last_looks(rt, alloc, key, onlookers, learned)?;
    Ok(looked && are_of_the_first(&looks))
}

static LOOKS_OF_THE_FIRST: [Look; 3] = [NOTHING_SEEN, NOTHING_SEEN, LAST_LOOK];

static LOOKS_OF_THE_SECOND: [Look; 1] = [LAST_LOOK];

fn are_of_the_first(looks: &Looks) -> bool {
    *looks.first.as_slice() == *LOOKS_OF_THE_FIRST.as_slice()
        && *looks.second.as_slice() == *LOOKS_OF_THE_SECOND.as_slice()
}

static ONE_PUT: [Put; 1] = [(1, A, 5)];

#[test]
fn each_reader_has_its_own_looks(rt: HostRuntime) -> Result<(), Fail> {
    let learned = history(rt.alloc(), &ONE_PUT)?;
    assert!(rt; look_apart(&rt, rt.alloc(), &learned)?);
    Ok(())
}

static ONE_IDENTITY: [Put; 3] = [(1, A, 5), (2, B, 6), (2, B, 7)];

#[test]
fn two_commands_of_one_identity_are_refused(rt: HostRuntime) -> Result<(), Fail> {
    let learned = history(rt.alloc(), &ONE_IDENTITY)?;
    assert!(rt; is_refused(&rt, rt.alloc(), &learned)?);
    Ok(())
}

// Whether both look before anything is published, and not at the end.
fn is_refused<R: Threads + Wait + Sync>(
    rt: &R,
    alloc: Global,
    learned: &History,
) -> Result<bool, Fail> {
    let (looked, looks) = looks_at(rt, alloc, learned)?;
    Ok(looked && looks.is_err())
}
