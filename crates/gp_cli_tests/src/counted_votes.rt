//! Compares certificates with the records of their run: the votes of each quorum are counted here.
use gp_audit::{Cause, Proof, certify};
use gp_command::CommandId;
use gp_history::Hist;
use gp_index::History;
use gp_msg::{Event, Msg, Node};
use gp_round::{Mode, Round, is_member};
use gp_world::World;
use std::alloc::Global;
use std::test::Fail;

fn has_id(history: &History, id: CommandId) -> bool {
    for i in 0..history.len() {
        if history.at(i).id() == id {
            return true;
        }
    }
    false
}

// The message that a learner takes in a record, if it takes one there.
fn taken<'a>(world: &'a World, event: &Event, learner: u32) -> Option<&'a Msg> {
    match event {
        Event::Take { node, message } if *node == Node::Learner(learner) => world.message(*message),
        _ => None,
    }
}

// The acceptor whose vote a message is, if it is a vote of this round for this command.
fn voter_of(message: &Msg, in_epoch: u32, in_round: Round, id: CommandId) -> Option<u32> {
    match message {
        Msg::P2b {
            epoch,
            round,
            acceptor,
            vote,
        } if *epoch == in_epoch && *round == in_round && has_id(vote, id) => Some(*acceptor),
        _ => None,
    }
}

// Which acceptors voted for the command, by the votes that the learner took after its last crash
// and up to the record of its certificate; and whether it took one of them in that record.
fn voters(
    world: &World,
    learner: u32,
    proof: &Proof,
    epoch: u32,
    round: Round,
) -> ([bool; 8], bool) {
    let mut voted = [false; 8];
    let mut last = false;
    let mut place = 0u64;
    for record in world.records() {
        if place > proof.at {
            break;
        }
        last = false;
        match &record.event {
            Event::Fall { node, .. } if *node == Node::Learner(learner) => voted = [false; 8],
            event => {
                if let Some(message) = taken(world, event, learner) {
                    if let Some(acceptor) = voter_of(message, epoch, round, proof.id) {
                        voted[acceptor as usize % 8] = true;
                        last = true;
                    }
                }
            }
        }
        place = place.wrapping_add(1);
    }
    (voted, last)
}

// More than half of the acceptors, and three quarters in a fast round.
fn needed(acceptors: u32, mode: Mode) -> u32 {
    match mode {
        Mode::Single | Mode::Multi => acceptors / 2 + 1,
        Mode::Fast => acceptors - acceptors / 4,
    }
}

// Whether each member of the quorum voted for the command, and they are as many as the round needs.
fn is_quorum(
    world: &World,
    learner: u32,
    proof: &Proof,
    epoch: u32,
    round: Round,
    mask: u8,
) -> bool {
    let (voted, last) = voters(world, learner, proof, epoch, round);
    let mut members = 0u32;
    for acceptor in 0..8u32 {
        if is_member(mask, acceptor) {
            if !voted[acceptor as usize % 8] {
                return false;
            }
            members = members.wrapping_add(1);
        }
    }
    last && members == needed(world.config().acceptors(), round.mode)
}

// Whether the record of the certificate takes this Final, which has the command.
fn is_final(world: &World, learner: u32, proof: &Proof, number: u64) -> bool {
    let Some(record) = world.records().get(proof.at as usize) else {
        return false;
    };
    match &record.event {
        Event::Take { node, message } if *node == Node::Learner(learner) && *message == number => {}
        _ => return false,
    }
    match world.message(number) {
        Some(Msg::Final { value, .. }) => has_id(value, proof.id),
        _ => false,
    }
}

fn is_counted(world: &World, learner: u32, proof: &Proof) -> bool {
    match proof.cause {
        Cause::Quorum { epoch, round, mask } => is_quorum(
            world, learner, proof, epoch, round, mask,
        ),
        Cause::Final { message } => is_final(world, learner, proof, message),
    }
}

/// Whether each learner has a certificate for each command that it learned, and each of them counts.
pub fn all_counted(alloc: Global, world: &World) -> Result<bool, Fail> {
    for learner in 0..world.config().learners() {
        let proofs = certify(alloc, world, learner)?;
        if proofs.as_slice().len() != world.learned(learner).len() {
            return Ok(false);
        }
        for proof in proofs.as_slice() {
            if !is_counted(world, learner, proof) {
                return Ok(false);
            }
        }
    }
    Ok(true)
}
