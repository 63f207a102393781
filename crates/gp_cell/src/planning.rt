//! Planning a move: the next state, and the record of the step.
ghost use Rattle.std.specs.Prelude.{◌≡◌, ◌<◌, ◌-◌, ◌^◌, true, map, IfOk};
ghost use Rattle.std.specs.Option.{option_map, option_to_list, option_copied};
ghost use Rattle.gp_round.specs.Configs.{is_owner};
ghost use Rattle.gp_msg.specs.Messages.{message_of, maybe_stamped, epoch_of};
ghost use Rattle.gp_proposer.specs.Table.{proposer_offer};
ghost use Rattle.gp_coordinator.specs.Epochs as table;
ghost use Rattle.gp_work.specs.Moves.{event_of};
ghost use Rattle.gp_cell.specs.Plans.{IsNamed, took, planned, CanPlan};

use crate::roles::Core;
use gp_command::{Draft, NoMemory};
use gp_coordinator::Coordinator;
use gp_msg::{Event, Msg, Node, Outs, Record};
use gp_proposer::Proposer;
use gp_round::Round;
use gp_work::Move;
use std::alloc::Global;

/// What a move would make: the next core of the node, and the record of its step.
#[derive(Drop)]
pub struct Plan {
    pub next: Core,
    pub made: Record,
}

impl Plan {
    /// The record that would be posted.
    pub fn made(&self) -> &Record
        ensures { result.now ≡ self.now.made }
    {
        &self.made
    }
}

// A proposer is given a draft.
fn offer(alloc: Global, proposer: &Proposer, draft: &Draft) -> Result<(Proposer, Outs), NoMemory>
    requires { proposer.now.offers < 2 ^ 32 - 1 }
    ensures next { IfOk result (λ r. r.0 ≡ (proposer_offer proposer.now draft.now).0) }
    ensures sent { IfOk result (λ r. map message_of r.1 ≡ option_to_list (maybe_stamped 0 (proposer_offer proposer.now draft.now).1)) }
{
    let mut next = *proposer;
    match next.offer(alloc, draft.copy()?) {
        Ok(out) => Ok((next, out)),
        Err(_) => Err(NoMemory),
    }
}

// A coordinator begins a round.
fn begin(coordinator: &Coordinator, round: Round) -> Result<(Coordinator, Outs), NoMemory>
    requires { is_owner coordinator.now.state.config.coordinators coordinator.now.state.number round ≡ true }
    ensures next { IfOk result (λ r. r.0 ≡ (table.begin coordinator.now round).0) }
    ensures sent { IfOk result (λ r. map message_of r.1 ≡ option_to_list (table.begin coordinator.now round).1) }
{
    let mut next = coordinator.copy()?;
    let out = next.begin(round)?;
    Ok((next, out))
}

// The epoch of a message, and 0 for a proposal, which has none.
fn epoch_of(m: &Msg) -> u32
    ensures { result ≡ epoch_of (message_of m.now) }
{
    match m {
        Msg::Propose { .. } => 0,
        Msg::P1a { epoch, .. }
        | Msg::P1b { epoch, .. }
        | Msg::P2a { epoch, .. }
        | Msg::P2b { epoch, .. }
        | Msg::Final { epoch, .. } => *epoch,
    }
}

// A node takes a message. The last epoch that its type has cannot be left, so a message of that
// epoch is refused as if memory ran out. No epoch exceeds the number of records, and a cell stops
// at 2^31 of these, so it does not get there.
fn take(alloc: Global, core: &Core, m: &Msg) -> Result<(Core, Outs), NoMemory>
    ensures next { IfOk result (λ r. r.0 ≡ (took core.now (message_of m.now)).0) }
    ensures sent { IfOk result (λ r. map message_of r.1 ≡ option_to_list (took core.now (message_of m.now)).1) }
{
    if epoch_of(m) == u32::MAX {
        return Err(NoMemory);
    }
    take_of_epoch(alloc, core, m)
}

// A node takes a message of an epoch that is not the last of its type.
#[tactic(auto, using(crate::proofs::Rooms::closes_no_last, crate::proofs::Rooms::learner_can_take))]
fn take_of_epoch(alloc: Global, core: &Core, m: &Msg) -> Result<(Core, Outs), NoMemory>
    requires { epoch_of (message_of m.now) < 2 ^ 32 - 1 }
    ensures next { IfOk result (λ r. r.0 ≡ (took core.now (message_of m.now)).0) }
    ensures sent { IfOk result (λ r. map message_of r.1 ≡ option_to_list (took core.now (message_of m.now)).1) }
{
    match core {
        Core::Proposer(proposer) => Ok((Core::Proposer(*proposer), Outs::new(alloc))),
        Core::Coordinator(coordinator) => {
            let mut next = coordinator.copy()?;
            let out = next.take(m)?;
            Ok((Core::Coordinator(next), out))
        }
        Core::Acceptor(acceptor) => {
            let mut next = acceptor.copy()?;
            let out = next.take(m)?;
            Ok((Core::Acceptor(next), out))
        }
        Core::Learner(learner) => {
            let mut next = learner.copy()?;
            let out = next.take(m)?;
            Ok((Core::Learner(next), out))
        }
    }
}

// The next core, and what is sent.
fn next_of(alloc: Global, core: &Core, mv: &Move, m: Option<&Msg>) -> Result<(Core, Outs), NoMemory>
    requires can { CanPlan core.now mv.now }
    requires named { IsNamed mv.now (option_copied m) }
    ensures next { IfOk result (λ r. r.0 ≡ (planned core.now mv.now (option_map message_of (option_copied m.entry))).0) }
    ensures sent { IfOk result (λ r. map message_of r.1 ≡ option_to_list (planned core.now mv.now (option_map message_of (option_copied m.entry))).1) }
{
    match (core, mv, m) {
        (Core::Proposer(proposer), Move::Offer(draft), _) => {
            let (next, out) = offer(alloc, proposer, draft)?;
            Ok((Core::Proposer(next), out))
        }
        (Core::Coordinator(coordinator), Move::Begin(round), _) => {
            let (next, out) = begin(coordinator, *round)?;
            Ok((Core::Coordinator(next), out))
        }
        (core, Move::Take(_), Some(m)) => take(alloc, core, m),
        _ => unreachable!(),
    }
}

fn event_of(node: Node, mv: &Move) -> Result<Event, NoMemory>
    ensures { IfOk result (λ e. e ≡ event_of node mv.now) }
{
    let (Node::Proposer(n) | Node::Coordinator(n) | Node::Acceptor(n) | Node::Learner(n)) = node;
    match mv {
        Move::Offer(draft) => Ok(Event::Offer {
            proposer: n,
            draft: draft.copy()?,
        }),
        Move::Begin(round) => Ok(Event::Begin {
            coordinator: n,
            round: *round,
        }),
        Move::Take(message) => Ok(Event::Take {
            node,
            message: *message,
        }),
    }
}

/// What a move of a node would make of its core. `m` is the message that the move takes.
pub(crate) fn make_plan(
    alloc: Global,
    node: Node,
    core: &Core,
    mv: &Move,
    m: Option<&Msg>,
) -> Result<Plan, NoMemory>
    requires can { CanPlan core.now mv.now }
    requires named { IsNamed mv.now (option_copied m) }
    ensures next { IfOk result (λ p. p.next ≡ (planned core.now mv.now (option_map message_of (option_copied m.entry))).0) }
    ensures sent { IfOk result (λ p. map message_of p.made.out ≡ option_to_list (planned core.now mv.now (option_map message_of (option_copied m.entry))).1) }
    ensures node { IfOk result (λ p. p.made.node ≡ node) }
    ensures event { IfOk result (λ p. p.made.event ≡ event_of node mv.now) }
{
    let event = event_of(node, mv)?;
    let (next, out) = next_of(alloc, core, mv, m)?;
    Ok(Plan {
        next,
        made: Record { node, event, out },
    })
}
