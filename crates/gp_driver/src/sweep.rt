//! Sweeps: nodes take messages one after another.
ghost use Rattle.std.specs.Prelude.{◌≡◌, ◌<◌, ◌≤◌, ◌^◌, ◌∷◌, [], ℕ, true, false, length, slice_get};
ghost use Rattle.gp_run.specs.Legal.{fits};
ghost use Rattle.gp_msg.specs.Nodes.{is_present};
ghost use Rattle.gp_msg.specs.Nodes as run_nodes;
ghost use Rattle.gp_run.specs.Messages.{messages};
ghost use Rattle.gp_run.specs.Runs.{entry_after};
ghost use Rattle.gp_driver.specs.Sweeps.{is_there, places, took, swept, sweep, first_place};
ghost use Rattle.gp_driver.specs.Roles.{node_of};
ghost use Rattle.gp_driver.specs.Stages.{is_fall, fault_counts, AllBut, Anyone, HasDriven, IsProposer, StageGoes, FailsByNode};

use crate::stage::{Stage, StageFault};
use gp_msg::{Event, MsgKind, Node};
use std::sync::Wait;

/// Whether message k was sent and is of this kind.
pub fn is_kind<S: Stage, W: Wait>(rt: &W, stage: &mut S, kind: MsgKind, k: u64) -> bool
    ensures there { result ≡ is_there kind (slice_get (messages (S.state stage.old).run) k) }
    ensures config { (S.state stage.new).config ≡ (S.state stage.old).config }
    ensures run { (S.state stage.new).run ≡ (S.state stage.old).run }
    ensures steady { (S.state stage.new).faults ≡ (S.state stage.old).faults }
    ensures goes { StageGoes Anyone (S.state stage.old) (S.state stage.new) }
    ensures counts { fault_counts (S.state stage.new).nodes ≡ fault_counts (S.state stage.old).nodes }
    ensures ready { (S.state stage.old).is_ready → (S.state stage.new).is_ready }
{
    match stage.kind(rt, k) {
        Some(found) => found == kind,
        None => false,
    }
}

/// A node takes the messages of a kind with numbers from `start` up to, but not including, `end`.
/// Returns how many it took.
pub fn take_all<S: Stage, W: Wait>(
    rt: &W,
    stage: &mut S,
    node: Node,
    kind: MsgKind,
    start: u64,
    end: u64,
) -> Result<u64, StageFault>
    requires ready { (S.state stage.old).is_ready }
    requires present { is_present (S.state stage.old).config node ≡ true }
    requires order { start ≤ end }
    requires within { end ≤ length (messages (S.state stage.old).run) }
    requires room { length (took (S.state stage.old).config node kind start end (S.state stage.old).run) ≤ 2 ^ 31 }
    ensures driven { HasDriven (S.state stage.old) (S.state stage.new)
        (took (S.state stage.old).config node kind start end (S.state stage.old).run) result }
    ensures goes { StageGoes (AllBut node) (S.state stage.old) (S.state stage.new) }
    ensures failed { FailsByNode (S.state stage.old).nodes (S.state stage.new).nodes result }
{
    let mut taken: u64 = 0;
    for k in start..end {
        if is_kind(rt, stage, kind, k) {
            stage.step(rt, Event::Take { node, message: k })?;
            taken += 1;
        }
    }
    Ok(taken)
}

/// A role whose nodes take messages.
#[derive(Clone, Copy)]
pub enum Role {
    Coordinator,
    Acceptor,
    Learner,
}

impl Role {
    /// The node of the role with this number.
    pub fn node(self, number: u32) -> Node
        ensures { result ≡ node_of self number }
    {
        match self {
            Role::Coordinator => Node::Coordinator(number),
            Role::Acceptor => Node::Acceptor(number),
            Role::Learner => Node::Learner(number),
        }
    }
}

/// The first `count` nodes of a role, one after another, take the messages of a kind that were sent
/// from number `start` on. Returns how many messages they took in total.
pub fn sweep<S: Stage, W: Wait>(
    rt: &W,
    stage: &mut S,
    role: Role,
    count: u32,
    kind: MsgKind,
    start: u64,
) -> Result<u64, StageFault>
    requires ready { (S.state stage.old).is_ready }
    requires present { (i : ℕ) → i < count → is_present (S.state stage.old).config (node_of role i) ≡ true }
    requires order { start ≤ length (messages (S.state stage.old).run) }
    requires room { length (sweep (S.state stage.old).config (node_of role) count kind start (S.state stage.old).run)
        ≤ 2 ^ 31 }
    ensures driven { HasDriven (S.state stage.old) (S.state stage.new)
        (sweep (S.state stage.old).config (node_of role) count kind start (S.state stage.old).run) result }
    ensures goes { StageGoes IsProposer (S.state stage.old) (S.state stage.new) }
    ensures failed { FailsByNode (S.state stage.old).nodes (S.state stage.new).nodes result }
{
    let end = stage.messages();
    let mut taken: u64 = 0;
    for i in 0..count {
        taken += take_all(rt, stage, role.node(i), kind, start, end)?;
    }
    Ok(taken)
}

/// Executes one event. Returns 1, the number of events.
pub fn make<S: Stage, W: Wait>(rt: &W, stage: &mut S, event: Event) -> Result<u64, StageFault>
    requires ready { (S.state stage.old).is_ready }
    requires room { length (S.state stage.old).run < 2 ^ 31 }
    requires no_fall { is_fall event ≡ false }
    requires fits { fits (S.state stage.old).config (S.state stage.old).run event ≡ true }
    ensures driven { HasDriven (S.state stage.old) (S.state stage.new)
        (entry_after (S.state stage.old).config (S.state stage.old).run event ∷ (S.state stage.old).run) result }
    ensures goes { StageGoes (AllBut (run_nodes.node_of event)) (S.state stage.old) (S.state stage.new) }
    ensures failed { FailsByNode (S.state stage.old).nodes (S.state stage.new).nodes result }
{
    match stage.step(rt, event) {
        Ok(_) => Ok(1),
        Err(fault) => Err(fault),
    }
}

/// The first `count` nodes of a role, one after another, take message k. Returns how many nodes
/// took it.
pub fn show<S: Stage, W: Wait>(
    rt: &W,
    stage: &mut S,
    role: Role,
    count: u32,
    k: u64,
) -> Result<u64, StageFault>
    requires ready { (S.state stage.old).is_ready }
    requires present { (i : ℕ) → i < count → is_present (S.state stage.old).config (node_of role i) ≡ true }
    requires sent { k < length (messages (S.state stage.old).run) }
    requires room { length (swept (S.state stage.old).config (node_of role) count (k ∷ []) (S.state stage.old).run)
        ≤ 2 ^ 31 }
    ensures driven { HasDriven (S.state stage.old) (S.state stage.new)
        (swept (S.state stage.old).config (node_of role) count (k ∷ []) (S.state stage.old).run) result }
    ensures goes { StageGoes IsProposer (S.state stage.old) (S.state stage.new) }
    ensures failed { FailsByNode (S.state stage.old).nodes (S.state stage.new).nodes result }
{
    let mut taken: u64 = 0;
    for i in 0..count {
        let node = role.node(i);
        taken += make(rt, stage, Event::Take { node, message: k })?;
    }
    Ok(taken)
}

/// The number of the first message of a kind that was sent from number `start` on, or `None` if
/// there is none.
pub fn first_since<S: Stage, W: Wait>(
    rt: &W,
    stage: &mut S,
    kind: MsgKind,
    start: u64,
) -> Option<u64>
    ensures first { result ≡ first_place (places kind start (messages (S.state stage.old).run)) }
    ensures config { (S.state stage.new).config ≡ (S.state stage.old).config }
    ensures run { (S.state stage.new).run ≡ (S.state stage.old).run }
    ensures steady { (S.state stage.new).faults ≡ (S.state stage.old).faults }
    ensures goes { StageGoes Anyone (S.state stage.old) (S.state stage.new) }
    ensures counts { fault_counts (S.state stage.new).nodes ≡ fault_counts (S.state stage.old).nodes }
    ensures ready { (S.state stage.old).is_ready → (S.state stage.new).is_ready }
{
    let end = stage.messages();
    for k in start..end {
        if is_kind(rt, stage, kind, k) {
            return Some(k);
        }
    }
    None
}
