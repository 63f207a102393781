//! Histories of 256 commands, in both representations.
use crate::outcome::holds;
use gp_bounds::{compatible, join, meet};
use gp_command::{Access, Command, CommandId, Draft, Key, Touch};
use gp_history::{Hist, SeqHistory};
use gp_index::History;
use std::alloc::Global;
use std::test::Fail;

// What the 256 commands do.
#[derive(Clone, Copy)]
enum Shape {
    /// Each writes one key.
    OneKey,
    /// Each writes a key of its own.
    OwnKeys,
    /// Each adds to one key.
    Additions,
    /// Every sixteenth is a checkpoint, and each other one writes a key of its own.
    Checkpoints,
    /// Reads, additions and writes of four keys, and a checkpoint for every 64.
    Mixed,
}

// By number they are in one order, and by steps of 77 in another: 0, 77, 154, 231, 52, 129, 206,
// 27, 104, 181, 2, 79 and so on.
const SCRAMBLED: u8 = 77;

// Command n of a shape. The order of the commands is by proposer first, and so not that of the numbers.
fn command(alloc: Global, shape: Shape, n: u8) -> Result<Command, Fail> {
    let id = CommandId {
        proposer: n as u32 % 8,
        number: n as u32 / 8 + 1,
    };
    Ok(Command::new(id, draft(alloc, shape, n)?))
}

fn draft(alloc: Global, shape: Shape, n: u8) -> Result<Draft, Fail> {
    if is_checkpoint(shape, n) {
        return Ok(Draft::checkpoint(alloc, b"")?);
    }
    match shape {
        Shape::OneKey => touching(alloc, b"x", Access::Write),
        Shape::Additions => touching(alloc, b"x", Access::Add),
        Shape::OwnKeys | Shape::Checkpoints => touching(alloc, &own_key(n), Access::Write),
        Shape::Mixed => touching(alloc, &own_key(n % 4), access(n / 4)),
    }
}

fn touching(alloc: Global, key: &[u8], access: Access) -> Result<Draft, Fail> {
    let key = Key::new(key)?;
    Ok(Draft::new(alloc, &[Touch { key, access }], b"")?)
}

fn is_checkpoint(shape: Shape, n: u8) -> bool {
    match shape {
        Shape::OneKey | Shape::OwnKeys | Shape::Additions => false,
        Shape::Checkpoints => n % 16 == 15,
        Shape::Mixed => n % 64 == 63,
    }
}

fn own_key(n: u8) -> [u8; 2] {
    [b'a' + n / 16, b'a' + n % 16]
}

fn access(n: u8) -> Access {
    match n % 3 {
        0 => Access::Read,
        1 => Access::Add,
        _ => Access::Write,
    }
}

// The first commands of a shape, from command 0 in these steps.
fn pushed<H: Hist>(alloc: Global, shape: Shape, step: u8, count: usize) -> Result<H, Fail> {
    let mut history = H::empty(alloc)?;
    let mut n: u8 = 0;
    for _ in 0..count {
        history.push(command(alloc, shape, n)?)?;
        n = n.wrapping_add(step);
    }
    Ok(history)
}

fn by_number<H: Hist>(alloc: Global, shape: Shape, count: usize) -> Result<H, Fail> {
    pushed(alloc, shape, 1, count)
}

fn scrambled<H: Hist>(alloc: Global, shape: Shape) -> Result<H, Fail> {
    pushed(alloc, shape, SCRAMBLED, 256)
}

// A shape, whether both orders are one history, and how many commands the meet has if they are two.
type Row = (Shape, bool, usize);

// Of one key, command 0 comes first in both orders, and 1 comes after it in the one and after 77 in
// the other. Before the first checkpoint come 0 to 14 in the one order and the first eleven numbers
// in the other; 0 and 2 are common.
static ROWS: [Row; 4] = [
    (Shape::OneKey, false, 1),
    (Shape::OwnKeys, true, 256),
    (Shape::Additions, true, 256),
    (Shape::Checkpoints, false, 2),
];

#[test]
fn long_histories_are_compared(rt: HostRuntime) -> Result<(), Fail> {
    for &(shape, same, met) in &ROWS {
        holds(&rt, is_compared::<SeqHistory>(rt.alloc(), shape, same, met))?;
        holds(&rt, is_compared::<History>(rt.alloc(), shape, same, met))?;
    }
    Ok(())
}

fn is_compared<H: Hist>(alloc: Global, shape: Shape, same: bool, met: usize) -> Result<bool, Fail> {
    let a: H = by_number(alloc, shape, 256)?;
    let b: H = scrambled(alloc, shape)?;
    Ok(are_related(&a, &b, same) && are_bounded(alloc, &a, &b, met)?)
}

fn are_related<H: Hist>(a: &H, b: &H, same: bool) -> bool {
    let prefixes = a.is_prefix(b) == same && b.is_prefix(a) == same;
    prefixes && a.same(b) == same && compatible(a, b) == same
}

// Whether the meet has so many commands, and the join is the first of the two.
fn are_bounded<H: Hist>(alloc: Global, a: &H, b: &H, met: usize) -> Result<bool, Fail> {
    Ok(meet(alloc, a, b)?.len() == met && join(alloc, a, b)?.same(a))
}

#[test]
fn one_key_walks_alike(rt: HostRuntime) -> Result<(), Fail> {
    holds(&rt, walk_alike(rt.alloc(), Shape::OneKey))
}

#[test]
fn own_keys_walk_alike(rt: HostRuntime) -> Result<(), Fail> {
    holds(&rt, walk_alike(rt.alloc(), Shape::OwnKeys))
}

#[test]
fn additions_walk_alike(rt: HostRuntime) -> Result<(), Fail> {
    holds(&rt, walk_alike(rt.alloc(), Shape::Additions))
}

#[test]
fn checkpoints_walk_alike(rt: HostRuntime) -> Result<(), Fail> {
    holds(&rt, walk_alike(rt.alloc(), Shape::Checkpoints))
}

#[test]
fn mixed_commands_walk_alike(rt: HostRuntime) -> Result<(), Fail> {
    holds(&rt, walk_alike(rt.alloc(), Shape::Mixed))
}

// Whether both representations walk alike over both orders, over their meet and over a join, and the
// calls that make the whole order give the same.
fn walk_alike(alloc: Global, shape: Shape) -> Result<bool, Fail> {
    let listed = walk_all::<SeqHistory>(alloc, shape)?;
    let indexed = walk_all::<History>(alloc, shape)?;
    let ordered = order_all(alloc, shape)?;
    let alike = listed.as_slice() == indexed.as_slice();
    Ok(alike && listed.len() > 768 && listed.as_slice() == ordered.as_slice())
}

// What is walked: both orders, their meet, and the join of half of the one with the other.
#[derive(Clone, Copy)]
enum Walked {
    ByNumber,
    Scrambled,
    Meet,
    Join,
}

static EACH: [Walked; 4] = [
    Walked::ByNumber,
    Walked::Scrambled,
    Walked::Meet,
    Walked::Join,
];

fn made<H: Hist>(alloc: Global, shape: Shape, which: Walked) -> Result<H, Fail> {
    match which {
        Walked::ByNumber => by_number(alloc, shape, 256),
        Walked::Scrambled => scrambled(alloc, shape),
        Walked::Meet => Ok(meet(
            alloc,
            &by_number(alloc, shape, 256)?,
            &scrambled(alloc, shape)?,
        )?),
        Walked::Join => Ok(join(
            alloc,
            &by_number(alloc, shape, 128)?,
            &scrambled(alloc, shape)?,
        )?),
    }
}

fn walk_all<H: Hist>(alloc: Global, shape: Shape) -> Result<Vec<CommandId>, Fail> {
    let mut walked = Vec::new(alloc);
    walk_each::<H>(alloc, shape, &mut walked)?;
    Ok(walked)
}

fn walk_each<H: Hist>(
    alloc: Global,
    shape: Shape,
    walked: &mut Vec<CommandId>,
) -> Result<(), Fail> {
    for which in &EACH {
        walk(alloc, &made::<H>(alloc, shape, *which)?, walked)?;
    }
    Ok(())
}

// Appends the identities of the commands in canonical order.
fn walk<H: Hist>(alloc: Global, history: &H, walked: &mut Vec<CommandId>) -> Result<(), Fail> {
    let mut taken = H::empty(alloc)?;
    for _ in 0..history.len() {
        let Some(next) = history.next_least(&taken) else {
            return Ok(());
        };
        taken.push(next.copy()?)?;
        walked.push(next.id())?;
    }
    Ok(())
}

// The same as `walk_all`, where each order is made by one call.
fn order_all(alloc: Global, shape: Shape) -> Result<Vec<CommandId>, Fail> {
    let mut ordered = Vec::new(alloc);
    order_each(alloc, shape, &mut ordered)?;
    Ok(ordered)
}

fn order_each(alloc: Global, shape: Shape, ordered: &mut Vec<CommandId>) -> Result<(), Fail> {
    for which in &EACH {
        order(&made(alloc, shape, *which)?, ordered)?;
    }
    Ok(())
}

fn order(history: &History, ordered: &mut Vec<CommandId>) -> Result<(), Fail> {
    push_ids(&history.in_order()?, ordered)
}

fn push_ids(history: &History, ids: &mut Vec<CommandId>) -> Result<(), Fail> {
    for place in 0..history.len() {
        ids.push(history.at(place).id())?;
    }
    Ok(())
}
