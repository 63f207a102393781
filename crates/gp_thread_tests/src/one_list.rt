//! What the threads post through one wire is one list.
ghost use Rattle.std.specs.Prelude.{◌≡◌, ◌<◌, length, map, IfOk, IfSome};
ghost use Rattle.gp_wire.specs.Lists.{Each, IsDistinct};
ghost use Rattle.gp_thread_tests.specs.Posters.{AreOfNodes, IsReady, IsStill, HasAll, acceptors};
ghost use Rattle.gp_thread_tests.specs.declared.posters.Poster.{Poster};

use crate::outcome::holds;
use crate::posters::{
    AllLegal, Findings, Mark, Poster, append_numbered, finds_nothing, mark, number_of, parts,
    posted, read_mark,
};
use gp_command::NoMemory;
use gp_msg::{Node, Record, Records};
use gp_wire::{Pass, Wire};
use std::alloc::Global;
use std::sync::Wait;
use std::test::Fail;
use std::thread::Threads;

static TWO: [Node; 2] = [Node::Acceptor(0), Node::Acceptor(1)];

static EIGHT: [Node; 8] = [
    Node::Acceptor(0),
    Node::Acceptor(1),
    Node::Coordinator(2),
    Node::Coordinator(3),
    Node::Learner(4),
    Node::Learner(5),
    Node::Proposer(6),
    Node::Proposer(7),
];

// The first acceptors. The greatest configuration has 24 nodes, and a wire may have more.
fn acceptors(alloc: Global, count: u32) -> Result<Vec<Node>, NoMemory>
    ensures { IfOk result (λ nodes. nodes.items ≡ acceptors count) }
{
    let mut nodes = Vec::new(alloc);
    for number in 0..count {
        nodes.push(Node::Acceptor(number))?;
    }
    Ok(nodes)
}

// There are more than 4,096 messages.
#[test]
fn two_nodes_post_a_long_list(rt: HostRuntime) -> Result<(), Fail> {
    holds(&rt, is_one_list(&rt, rt.alloc(), &TWO, 2_100))
}

#[test]
fn eight_nodes_post_one_list(rt: HostRuntime) -> Result<(), Fail> {
    holds(&rt, is_one_list(&rt, rt.alloc(), &EIGHT, 50))
}

#[test]
fn thirty_two_nodes_post_one_list(rt: HostRuntime) -> Result<(), Fail> {
    holds(&rt, is_one_list_of(&rt, rt.alloc(), 32, 10))
}

#[tactic(auto, using(crate::proofs::Passing::acceptors_some))]
fn is_one_list_of<R: Threads + Wait + Sync>(
    rt: &R,
    alloc: Global,
    count: u32,
    posts: u32,
) -> Result<bool, Fail>
    requires { 0 < count }
{
    let nodes = acceptors(alloc, count)?;
    is_one_list(rt, alloc, &nodes, posts)
}

#[test]
fn a_pass_that_has_met_two_sees_all(rt: HostRuntime) -> Result<(), Fail> {
    holds(&rt, sees_all(&rt, rt.alloc(), &TWO, 300))
}

#[test]
fn a_pass_that_has_met_eight_sees_all(rt: HostRuntime) -> Result<(), Fail> {
    holds(&rt, sees_all(&rt, rt.alloc(), &EIGHT, 100))
}

static ONE: [Node; 1] = [Node::Acceptor(0)];

#[test]
fn a_pass_has_two_million_turns(rt: HostRuntime) -> Result<(), Fail> {
    holds(&rt, takes_turns(&rt, rt.alloc(), 2_000_000))
}

fn takes_turns<R: Wait>(rt: &R, alloc: Global, turns: u32) -> Result<bool, Fail> {
    let (wire, mut passes) = Wire::new(alloc, AllLegal, &ONE)?;
    match passes.first_mut() {
        Some(pass) => Ok(finds_nothing(rt, &wire, pass, turns)),
        None => Ok(false),
    }
}

#[test]
fn the_last_of_up_to_32_nodes_is_heard(rt: HostRuntime) -> Result<(), Fail> {
    for count in 25..=32 {
        assert!(rt; hears_the_last(&rt, rt.alloc(), count)?);
    }
    Ok(())
}

// Whether a wire with so many nodes is made, and a message of the last of them is read by another.
#[tactic(auto, using(crate::proofs::Passing::acceptors_distinct, crate::proofs::Passing::acceptors_some, crate::proofs::Passing::ready_each))]
fn hears_the_last<R: Wait>(rt: &R, alloc: Global, count: u32) -> Result<bool, Fail>
    requires { 0 < count }
{
    let nodes = acceptors(alloc, count)?;
    let (wire, passes) = Wire::new(alloc, AllLegal, &nodes)?;
    Ok(passes.len() == count as usize && is_heard(rt, alloc, &wire, passes))
}

// Whether a message of the node of the last pass is read by the node of the pass before.
fn is_heard<R: Wait>(rt: &R, alloc: Global, wire: &Wire<AllLegal>, passes: Vec<Pass>) -> bool
    requires { Each (IsReady wire.now.id) passes.items }
{
    let mut left = passes;
    let Some(mut last) = left.pop() else {
        return false;
    };
    let Some(mut other) = left.pop() else {
        return false;
    };
    let count = append_numbered(rt, alloc, wire, &mut last, 7);
    let read = read_mark(rt, wire, &mut other, 0);
    count == Some(1) && read == Some((number_of(last.node()), 7))
}

// Whether the closed list begins with what each node read, and has of each node its records in
// their order.
fn is_one_list<R: Threads + Wait + Sync>(
    rt: &R,
    alloc: Global,
    nodes: &[Node],
    posts: u32,
) -> Result<bool, Fail>
    requires some { 0 < length nodes.now }
    requires distinct { IsDistinct nodes.now }
{
    let (wire, posters) = posted(rt, alloc, nodes, posts)?;
    let (records, findings) = closed(alloc, wire, posters)?;
    let all = nodes.len().saturating_mul(posts as usize);
    Ok(all_fit(alloc, records.as_slice(), all, &findings, posts)?)
}

// Whether there are this many messages, and what each node found fits.
fn all_fit(
    alloc: Global,
    records: &[Record],
    all: usize,
    findings: &[Findings],
    posts: u32,
) -> Result<bool, NoMemory> {
    let list = marks(alloc, records)?;
    if list.len() != all {
        return Ok(false);
    }
    for found in findings {
        if !fits(&list, found, posts) {
            return Ok(false);
        }
    }
    Ok(true)
}

// Whether a pass that has met all others has the whole list, posts after it, and closes the wire.
fn sees_all<R: Threads + Wait + Sync>(
    rt: &R,
    alloc: Global,
    nodes: &[Node],
    posts: u32,
) -> Result<bool, Fail>
    requires some { 0 < length nodes.now }
    requires distinct { IsDistinct nodes.now }
{
    let (wire, posters) = posted(rt, alloc, nodes, posts)?;
    let (passes, findings) = parts(alloc, posters)?;
    let Some(mut whole) = gathered(&wire, passes) else {
        return Ok(false);
    };
    let all = nodes.len().saturating_mul(posts as usize) as u64;
    let has_all = whole.seen() == all;
    let is_posted = posts_at(rt, alloc, &wire, &mut whole, all);
    let records = closed_by(alloc, wire, whole)?;
    let is_closed = begins_as_read(alloc, records.as_slice(), all.saturating_add(1), &findings)?;
    Ok(has_all && is_posted && is_closed)
}

// Whether there are this many messages, and they begin with what each node read.
fn begins_as_read(
    alloc: Global,
    records: &[Record],
    all: u64,
    findings: &[Findings],
) -> Result<bool, NoMemory> {
    let list = marks(alloc, records)?;
    if list.len() as u64 != all {
        return Ok(false);
    }
    for found in findings {
        if !list.starts_with(found.read.as_slice()) {
            return Ok(false);
        }
    }
    Ok(true)
}

// Whether a pass that has seen all posts a message at this place, and reads it there.
fn posts_at<W: Wait>(rt: &W, alloc: Global, wire: &Wire<AllLegal>, pass: &mut Pass, at: u64) -> bool
    requires ready { IsReady wire.now.id pass.old }
    ensures still { IsStill pass.old pass.new }
{
    let count = append_numbered(rt, alloc, wire, pass, u32::MAX);
    let read = read_mark(rt, wire, pass, at);
    let is_last = count == Some(at.saturating_add(1));
    is_last && matches!(read, Some((_, u32::MAX)))
}

// The list of a wire, and what its nodes found.
fn closed(
    alloc: Global,
    wire: Wire<AllLegal>,
    posters: Vec<Poster>,
) -> Result<(Records, Vec<Findings>), NoMemory>
    requires of { AreOfNodes wire.id wire.nodes (map (λ (p : Poster). p.pass) posters.items) }
{
    let (passes, findings) = parts(alloc, posters)?;
    Ok((wire.close(passes), findings))
}

// The list of a wire, which one pass with all nodes closes.
fn closed_by(alloc: Global, wire: Wire<AllLegal>, whole: Pass) -> Result<Records, NoMemory>
    requires of { whole.wire ≡ wire.id }
    requires all { HasAll wire.nodes whole }
{
    let mut passes = Vec::new(alloc);
    passes.push(whole)?;
    Ok(wire.close(passes))
}

// One pass, which has met all the others.
fn gathered(wire: &Wire<AllLegal>, passes: Vec<Pass>) -> Option<Pass>
    requires of { AreOfNodes wire.now.id wire.now.nodes passes.items }
    ensures ready { IfSome result (λ p. IsReady wire.now.id p) }
    ensures all { IfSome result (λ p. HasAll wire.now.nodes p) }
{
    let mut left = passes;
    let mut whole = left.pop()?;
    while let Some(next) = left.pop() {
        let mut next = next;
        wire.meet(&mut whole, &mut next);
    }
    Some(whole)
}

// The marks of the messages of records.
fn marks(alloc: Global, records: &[Record]) -> Result<Vec<Mark>, NoMemory> {
    let mut marks = Vec::new(alloc);
    for record in records {
        for m in record.out.as_slice() {
            marks.push(mark(m))?;
        }
    }
    Ok(marks)
}

// Whether no call of a node failed, the node read a beginning of the list, and the list has what it
// posted, at the right places.
fn fits(list: &[Mark], found: &Findings, posts: u32) -> bool {
    !found.failed
        && list.starts_with(found.read.as_slice())
        && is_in_order(list, found.node, posts)
        && stands_where_it_was_told(list, found)
}

// Whether the list has exactly this many messages of the node, in their order.
fn is_in_order(list: &[Mark], node: u32, posts: u32) -> bool {
    let mut next = 0u32;
    for (of, number) in list {
        if *of == node {
            if *number != next {
                return false;
            }
            next = next.saturating_add(1);
        }
    }
    next == posts
}

// Whether each message of the node is where its post said: the last of as many messages as the post
// returned.
fn stands_where_it_was_told(list: &[Mark], found: &Findings) -> bool {
    let mut number = 0u32;
    for count in &found.counts {
        let place = count.saturating_sub(1) as usize;
        if list.get(place) != Some(&(found.node, number)) {
            return false;
        }
        number = number.saturating_add(1);
    }
    true
}
