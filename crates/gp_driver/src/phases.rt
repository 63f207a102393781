//! The two phases of a round that has begun.
ghost use Rattle.std.specs.Prelude.{◌≡◌, ◌≤◌, ◌^◌, length};
ghost use Rattle.gp_run.specs.Messages.{messages};
ghost use Rattle.gp_driver.specs.Phases.{answered_from, voted_from};
ghost use Rattle.gp_driver.specs.Stages.{HasDriven, IsProposer, StageGoes, FailsByNode};

use crate::stage::{Stage, StageFault};
use crate::sweep::{Role, sweep};
use gp_msg::MsgKind;
use gp_round::Config;
use std::sync::Wait;

/// The acceptors answer the P1a messages, and the first `leaders` coordinators take the answers.
/// Nodes take the messages that were sent from number `start` on.
pub fn answer<S: Stage, W: Wait>(
    rt: &W,
    stage: &mut S,
    config: &Config,
    leaders: u32,
    start: u64,
) -> Result<u64, StageFault>
    requires ready { (S.state stage.old).is_ready }
    requires config { config.now ≡ (S.state stage.old).config }
    requires leaders { leaders ≤ (S.state stage.old).config.coordinators }
    requires order { start ≤ length (messages (S.state stage.old).run) }
    requires room { length (answered_from (S.state stage.old).config leaders start (S.state stage.old).run) ≤ 2 ^ 31 }
    ensures driven { HasDriven (S.state stage.old) (S.state stage.new)
        (answered_from (S.state stage.old).config leaders start (S.state stage.old).run) result }
    ensures goes { StageGoes IsProposer (S.state stage.old) (S.state stage.new) }
    ensures failed { FailsByNode (S.state stage.old).nodes (S.state stage.new).nodes result }
{
    let acceptors = config.acceptors();
    let asked = sweep(rt, stage, Role::Acceptor, acceptors, MsgKind::P1a, start)?;
    let answered = sweep(rt, stage, Role::Coordinator, leaders, MsgKind::P1b, start)?;
    Ok(asked + answered)
}

/// The acceptors vote for the values that coordinators sent, and the learners take the votes. Nodes
/// take the messages that were sent from number `start` on.
pub fn vote<S: Stage, W: Wait>(
    rt: &W,
    stage: &mut S,
    config: &Config,
    start: u64,
) -> Result<u64, StageFault>
    requires ready { (S.state stage.old).is_ready }
    requires config { config.now ≡ (S.state stage.old).config }
    requires order { start ≤ length (messages (S.state stage.old).run) }
    requires room { length (voted_from (S.state stage.old).config start (S.state stage.old).run) ≤ 2 ^ 31 }
    ensures driven { HasDriven (S.state stage.old) (S.state stage.new)
        (voted_from (S.state stage.old).config start (S.state stage.old).run) result }
    ensures goes { StageGoes IsProposer (S.state stage.old) (S.state stage.new) }
    ensures failed { FailsByNode (S.state stage.old).nodes (S.state stage.new).nodes result }
{
    let acceptors = config.acceptors();
    let voted = sweep(rt, stage, Role::Acceptor, acceptors, MsgKind::P2a, start)?;
    let learners = config.learners();
    let heard = sweep(rt, stage, Role::Learner, learners, MsgKind::P2b, start)?;
    Ok(voted + heard)
}
