//! Nodes that post numbered messages to one wire, each in a thread of its own.
ghost use Rattle.std.specs.Prelude.{◌≡◌, ◌<◌, ℕ, All, length, map, slice_index_or, IfOk};
ghost use Rattle.gp_msg.specs.declared.node.Node.{Node};
ghost use Rattle.gp_wire.specs.Lists.{IsDistinct};
ghost use Rattle.gp_thread_tests.specs.Posters.{IsReady, IsStill, AreOfNodes};
ghost use Rattle.gp_thread_tests.specs.declared.posters.Poster.{Poster};

use gp_command::NoMemory;
use gp_msg::{Event, Msg, MsgKind, Node, Outs, Record};
use gp_round::{Mode, Round};
use gp_wire::{Pass, Rules, Wire};
use std::alloc::Global;
use std::sync::Wait;
use std::thread;
use std::thread::Threads;

/// Every record is legal after every list.
#[derive(Clone, Copy)]
pub struct AllLegal;

impl Rules for AllLegal {
    ghost legal = { λ r xs x. Unit {0} };

    ghost stays = { λ r xs ys x legal more others. tt };
}

/// A message, by the number of its node and its number there.
pub type Mark = (u32, u32);

/// What a node found.
#[derive(Drop)]
pub struct Findings {
    pub node: u32,
    /// What it read of the list, in the order of the list.
    pub read: Vec<Mark>,
    /// How many messages there were after each of its posts.
    pub counts: Vec<u64>,
    /// A call was refused, or a message that had a kind could not be read.
    pub failed: bool,
}

/// A node that posts this many records, and after each of them reads what it has not read.
#[derive(Drop)]
pub struct Poster {
    pub alloc: Global,
    pub pass: Pass,
    pub posts: u32,
    pub findings: Findings,
}

/// A number that no other node has. A role has at most eight nodes, numbered from 0.
pub fn number_of(node: Node) -> u32 {
    match node {
        Node::Acceptor(n) => n,
        Node::Coordinator(n) => n.saturating_add(10),
        Node::Learner(n) => n.saturating_add(20),
        Node::Proposer(n) => n.saturating_add(30),
    }
}

/// The mark of a message that a poster sent.
pub fn mark(m: &Msg) -> Mark {
    match m {
        Msg::P1a { epoch, round } => (*epoch, round.count),
        _ => (u32::MAX, 0),
    }
}

/// A record of a node with one message, which has this number.
pub fn numbered(alloc: Global, node: Node, number: u32) -> Result<Record, NoMemory>
    ensures { IfOk result (λ r. r.node ≡ node) }
{
    let mut out = Outs::new(alloc);
    let round = Round {
        count: number,
        mode: Mode::Single,
        lead: 0,
    };
    out.push(Msg::P1a {
        epoch: number_of(node),
        round,
    })?;
    let event = Event::Take { node, message: 0 };
    Ok(Record { node, event, out })
}

/// Posts a record with one message, and returns how many messages there are then.
pub fn append_numbered<W: Wait>(
    rt: &W,
    alloc: Global,
    wire: &Wire<AllLegal>,
    pass: &mut Pass,
    number: u32,
) -> Option<u64>
    requires ready { IsReady wire.now.id pass.old }
    ensures still { IsStill pass.old pass.new }
{
    let Ok(record) = numbered(alloc, pass.node(), number) else {
        return None;
    };
    match wire.append(rt, pass, record) {
        Ok(count) => Some(count),
        Err(_) => None,
    }
}

// Posts a record, and keeps how many messages there are then.
fn post<W: Wait>(rt: &W, wire: &Wire<AllLegal>, poster: &mut Poster, number: u32) -> bool
    requires ready { IsReady wire.now.id poster.old.pass }
    ensures still { IsStill poster.old.pass poster.new.pass }
{
    match append_numbered(rt, poster.alloc, wire, &mut poster.pass, number) {
        Some(count) => poster.findings.counts.push(count).is_ok(),
        None => false,
    }
}

/// Reads the mark of message k.
pub fn read_mark<W: Wait>(rt: &W, wire: &Wire<AllLegal>, pass: &mut Pass, k: u64) -> Option<Mark>
    requires ready { IsReady wire.now.id pass.old }
    ensures still { IsStill pass.old pass.new }
{
    match wire.read(rt, pass, k) {
        Ok(Some(m)) => Some(mark(&m)),
        _ => None,
    }
}

// Reads the next message. A message that has a kind is there.
fn read_next<W: Wait>(rt: &W, wire: &Wire<AllLegal>, poster: &mut Poster) -> Option<bool>
    requires ready { IsReady wire.now.id poster.old.pass }
    ensures still { IsStill poster.old.pass poster.new.pass }
{
    let k = poster.findings.read.len() as u64;
    let kind = wire.kind(rt, &mut poster.pass, k)?;
    match read_mark(rt, wire, &mut poster.pass, k) {
        Some(m) => Some(poster.findings.read.push(m).is_ok() && kind == MsgKind::P1a),
        None => Some(false),
    }
}

// Reads what it has not read.
fn read_on<W: Wait>(rt: &W, wire: &Wire<AllLegal>, poster: &mut Poster) -> bool
    requires ready { IsReady wire.now.id poster.old.pass }
    ensures still { IsStill poster.old.pass poster.new.pass }
{
    for _ in rt.forever() {
        match read_next(rt, wire, poster) {
            Some(true) => {}
            Some(false) => return false,
            None => return true,
        }
    }
    unreachable!()
}

// The work of one node.
fn work<W: Wait>(rt: &W, wire: &Wire<AllLegal>, poster: &mut Poster)
    requires ready { IsReady wire.now.id poster.old.pass }
    ensures still { IsStill poster.old.pass poster.new.pass }
{
    for number in 0..poster.posts {
        if !post(rt, wire, poster, number) || !read_on(rt, wire, poster) {
            poster.findings.failed = true;
        }
    }
}

// Each node works in a thread of its own.
fn work_all<R: Threads + Wait + Sync>(
    rt: &R,
    wire: &Wire<AllLegal>,
    mut posters: Vec<Poster>,
) -> Vec<Poster>
    requires some { 0 < length posters.items }
    requires ready { All (λ (p : Poster). IsReady wire.now.id p.pass) posters.items }
    ensures same { length result.items ≡ length posters.items }
    ensures each { (i : ℕ) (d : Poster) → i < length posters.items → IsStill (slice_index_or posters.items i d).pass (slice_index_or result.items i d).pass }
{
    let count = posters.len();
    thread::for_each_mut(
        rt,
        posters.as_mut_slice(),
        count,
        &|_, poster| work(rt, wire, poster),
    );
    posters
}

// A poster for each pass.
fn posters(alloc: Global, passes: Vec<Pass>, posts: u32) -> Result<Vec<Poster>, NoMemory>
    ensures { IfOk result (λ v. map (λ (p : Poster). p.pass) v.items ≡ passes.items) }
{
    let mut posters = Vec::new(alloc);
    let mut left = passes;
    left.reverse();
    while let Some(pass) = left.pop() {
        let findings = Findings {
            node: number_of(pass.node()),
            read: Vec::new(alloc),
            counts: Vec::new(alloc),
            failed: false,
        };
        posters.push(Poster {
            alloc,
            pass,
            posts,
            findings,
        })?;
    }
    Ok(posters)
}

/// A wire to which each node has posted this many records.
pub fn posted<R: Threads + Wait + Sync>(
    rt: &R,
    alloc: Global,
    nodes: &[Node],
    posts: u32,
) -> Result<(Wire<AllLegal>, Vec<Poster>), NoMemory>
    requires some { 0 < length nodes.now }
    requires distinct { IsDistinct nodes.now }
    ensures { IfOk result (λ w. AreOfNodes w.0.id w.0.nodes (map (λ (p : Poster). p.pass) w.1.items)) }
{
    let (wire, passes) = Wire::new(alloc, AllLegal, nodes)?;
    let posters = posters(alloc, passes, posts)?;
    let worked = work_all(rt, &wire, posters);
    Ok((wire, worked))
}

/// The passes and the findings of posters, in their order.
pub fn parts(alloc: Global, posters: Vec<Poster>) -> Result<(Vec<Pass>, Vec<Findings>), NoMemory>
    ensures { IfOk result (λ w. w.0.items ≡ map (λ (p : Poster). p.pass) posters.items) }
{
    let mut passes = Vec::new(alloc);
    let mut findings = Vec::new(alloc);
    let mut left = posters;
    left.reverse();
    while let Some(poster) = left.pop() {
        let Poster {
            alloc: _,
            pass,
            posts: _,
            findings: found,
        } = poster;
        passes.push(pass)?;
        findings.push(found)?;
    }
    Ok((passes, findings))
}

/// Looks for the first message this often, in a turn each, and returns whether there never was one.
pub fn finds_nothing<W: Wait>(rt: &W, wire: &Wire<AllLegal>, pass: &mut Pass, turns: u32) -> bool
    requires ready { IsReady wire.now.id pass.old }
    ensures still { IsStill pass.old pass.new }
{
    for _ in 0..turns {
        if wire.kind(rt, pass, 0).is_some() {
            return false;
        }
    }
    true
}
