//! Settling: single rounds of coordinator 0, until every learner holds every offered command.
ghost use Rattle.std.specs.Prelude.{◌≡◌, ◌<◌, ◌≤◌, ◌+◌, ◌∷◌, [], ◌^◌, List, true, length};
ghost use Rattle.gp_round.specs.declared.config.TheConstants.{LAST_COUNT};
ghost use Rattle.gp_msg.specs.Messages.{Entry};
ghost use Rattle.gp_msg.specs.declared.message.MsgKind.TheVariants as Kind;
ghost use Rattle.gp_run.specs.Messages.{messages};
ghost use Rattle.gp_run.specs.Legal.{Legal};
ghost use Rattle.gp_run.specs.TopCount.{top_count};
ghost use Rattle.gp_driver.specs.Sweeps.{places, swept};
ghost use Rattle.gp_driver.specs.Roles.{node_of};
ghost use Rattle.gp_driver.specs.declared.sweep.Role.TheVariants as Role;
ghost use Rattle.gp_driver.specs.Settling.{begun, closings, closed, pass, passes, CanPass, settle, checkpoints};
ghost use Rattle.gp_driver.specs.Stages.{HasDriven, IsProposer, StageGoes, FailsByNode};
ghost use Rattle.gp_driver.specs.Settled.{Settles};

use crate::phases::{answer, vote};
use crate::stage::{Stage, StageFault, config_of};
use crate::sweep::{Role, first_since, is_kind, make, show, sweep};
use gp_msg::{Event, MsgKind};
use gp_round::{Config, Mode, Round};
use std::sync::Wait;

// Coordinator 0, and then each acceptor, takes message k.
fn close<S: Stage, W: Wait>(
    rt: &W,
    stage: &mut S,
    config: &Config,
    k: u64,
) -> Result<u64, StageFault>
    requires ready { (S.state stage.old).is_ready }
    requires config { config.now ≡ (S.state stage.old).config }
    requires lead { 0 < (S.state stage.old).config.coordinators }
    requires sent { k < length (messages (S.state stage.old).run) }
    requires room { length (closed (S.state stage.old).config k (S.state stage.old).run) ≤ 2 ^ 31 }
    ensures driven { HasDriven (S.state stage.old) (S.state stage.new)
        (closed (S.state stage.old).config k (S.state stage.old).run) result }
    ensures goes { StageGoes IsProposer (S.state stage.old) (S.state stage.new) }
    ensures failed { FailsByNode (S.state stage.old).nodes (S.state stage.new).nodes result }
{
    let leader = show(rt, stage, Role::Coordinator, 1, k)?;
    let voters = show(rt, stage, Role::Acceptor, config.acceptors(), k)?;
    Ok(leader + voters)
}

// Coordinator 0 begins a single round with a greater count than any other.
fn begin_next<S: Stage, W: Wait>(rt: &W, stage: &mut S) -> Result<u64, StageFault>
    requires ready { (S.state stage.old).is_ready }
    requires lead { 0 < (S.state stage.old).config.coordinators }
    requires round { top_count (S.state stage.old).config (S.state stage.old).run < LAST_COUNT }
    requires room { length (S.state stage.old).run < 2 ^ 31 }
    ensures driven { HasDriven (S.state stage.old) (S.state stage.new)
        (begun (S.state stage.old).config (S.state stage.old).run) result }
    ensures goes { StageGoes IsProposer (S.state stage.old) (S.state stage.new) }
    ensures failed { FailsByNode (S.state stage.old).nodes (S.state stage.new).nodes result }
{
    let round = Round {
        count: stage.top_count() + 1,
        mode: Mode::Single,
        lead: 0,
    };
    make(
        rt,
        stage,
        Event::Begin {
            coordinator: 0,
            round,
        },
    )
}

// Coordinator 0 leads a single round with a greater count than any other.
fn pass_once<S: Stage, W: Wait>(rt: &W, stage: &mut S, config: &Config) -> Result<u64, StageFault>
    requires ready { (S.state stage.old).is_ready }
    requires config { config.now ≡ (S.state stage.old).config }
    requires lead { 0 < (S.state stage.old).config.coordinators }
    requires round { top_count (S.state stage.old).config (S.state stage.old).run < LAST_COUNT }
    requires room { length (pass (S.state stage.old).config (S.state stage.old).run) ≤ 2 ^ 31 }
    ensures driven { HasDriven (S.state stage.old) (S.state stage.new)
        (pass (S.state stage.old).config (S.state stage.old).run) result }
    ensures goes { StageGoes IsProposer (S.state stage.old) (S.state stage.new) }
    ensures failed { FailsByNode (S.state stage.old).nodes (S.state stage.new).nodes result }
{
    let start = stage.messages();
    let begun = begin_next(rt, stage)?;
    let answered = answer(rt, stage, config, 1, start)?;
    let heard = vote(rt, stage, config, start)?;
    Ok(begun + answered + heard)
}

// Coordinator 0, then each acceptor, then each learner takes message k.
fn spread<S: Stage, W: Wait>(
    rt: &W,
    stage: &mut S,
    config: &Config,
    k: u64,
) -> Result<u64, StageFault>
    requires ready { (S.state stage.old).is_ready }
    requires config { config.now ≡ (S.state stage.old).config }
    requires lead { 0 < (S.state stage.old).config.coordinators }
    requires sent { k < length (messages (S.state stage.old).run) }
    requires room { length (closings (S.state stage.old).config (k ∷ []) (S.state stage.old).run) ≤ 2 ^ 31 }
    ensures driven { HasDriven (S.state stage.old) (S.state stage.new)
        (closings (S.state stage.old).config (k ∷ []) (S.state stage.old).run) result }
    ensures goes { StageGoes IsProposer (S.state stage.old) (S.state stage.new) }
    ensures failed { FailsByNode (S.state stage.old).nodes (S.state stage.new).nodes result }
{
    let closers = close(rt, stage, config, k)?;
    let learners = show(rt, stage, Role::Learner, config.learners(), k)?;
    Ok(closers + learners)
}

// Coordinator 0, the acceptors and the learners take the Final messages that were sent, one message
// after another.
fn take_finals<S: Stage, W: Wait>(rt: &W, stage: &mut S, config: &Config) -> Result<u64, StageFault>
    requires ready { (S.state stage.old).is_ready }
    requires config { config.now ≡ (S.state stage.old).config }
    requires lead { 0 < (S.state stage.old).config.coordinators }
    requires room { length (closings (S.state stage.old).config (places Kind.Final 0 (messages (S.state stage.old).run)) (S.state stage.old).run)
        ≤ 2 ^ 31 }
    ensures driven { HasDriven (S.state stage.old) (S.state stage.new)
        (closings (S.state stage.old).config (places Kind.Final 0 (messages (S.state stage.old).run)) (S.state stage.old).run) result }
    ensures goes { StageGoes IsProposer (S.state stage.old) (S.state stage.new) }
    ensures failed { FailsByNode (S.state stage.old).nodes (S.state stage.new).nodes result }
{
    let end = stage.messages();
    let mut taken: u64 = 0;
    for k in 0..end {
        if is_kind(rt, stage, MsgKind::Final, k) {
            taken += spread(rt, stage, config, k)?;
        }
    }
    Ok(taken)
}

// Makes at most `limit` passes. Another pass follows only if the last one closed an epoch.
fn make_passes<S: Stage, W: Wait>(
    rt: &W,
    stage: &mut S,
    config: &Config,
    limit: u64,
) -> Result<u64, StageFault>
    requires ready { (S.state stage.old).is_ready }
    requires config { config.now ≡ (S.state stage.old).config }
    requires lead { 0 < (S.state stage.old).config.coordinators }
    requires can { CanPass (S.state stage.old).config limit (S.state stage.old).run }
    requires room { length (passes (S.state stage.old).config limit (S.state stage.old).run) ≤ 2 ^ 31 }
    ensures driven { HasDriven (S.state stage.old) (S.state stage.new)
        (passes (S.state stage.old).config limit (S.state stage.old).run) result }
    ensures goes { StageGoes IsProposer (S.state stage.old) (S.state stage.new) }
    ensures failed { FailsByNode (S.state stage.old).nodes (S.state stage.new).nodes result }
{
    let mut events: u64 = 0;
    for _pass in 0..limit {
        let start = stage.messages();
        events += pass_once(rt, stage, config)?;
        let Some(k) = first_since(rt, stage, MsgKind::Final, start) else {
            return Ok(events);
        };
        events += close(rt, stage, config, k)?;
    }
    Ok(events)
}

/// Settles a legal run: every learner then holds every offered command. The greatest count of a
/// round and the number of offered checkpoints must be below `LAST_COUNT` together, and the settled
/// run must have at most 2^31 events. Returns the number of events that this took. The first fault
/// of a step ends it.
///
/// Coordinator 0, then every acceptor and then every learner takes each Final message, and
/// coordinator 0 takes each proposal. Then passes follow. In a pass, coordinator 0 leads a single
/// round. If the pass sent a Final message, coordinator 0 and the acceptors take the first one that
/// it sent, and another pass follows. Nodes take messages one node after another, in the order of
/// their numbers.
///
/// `NoMemory` means that memory ran out, which is possible at any step. `Disk` and `Full` are
/// returned only if the stage's count of faults has risen or is 2^64 - 1: for `Full` it has risen
/// by one. `Disk` is a fault of the disk of a listed node. The numbers of `Full` are too great for
/// an event, not a crash, that fits the run as it is then. After any other result the count is
/// unchanged. After any result but `Disk` the counts of the disks of the listed nodes are
/// unchanged. Whatever the result is, no listed proposer makes an event. After a fault the
/// configuration is the same and the run extends the run before; no clause says which events were
/// made.
pub fn settle<S: Stage, W: Wait>(rt: &W, stage: &mut S) -> Result<u64, StageFault>
    requires ready { (S.state stage.old).is_ready }
    requires legal { Legal (S.state stage.old).config (S.state stage.old).run }
    requires rounds { top_count (S.state stage.old).config (S.state stage.old).run
        + checkpoints (messages (S.state stage.old).run) < LAST_COUNT }
    requires room { length (settle (S.state stage.old).config (S.state stage.old).run) ≤ 2 ^ 31 }
    ensures driven { HasDriven (S.state stage.old) (S.state stage.new)
        (settle (S.state stage.old).config (S.state stage.old).run) result }
    ensures goes { StageGoes IsProposer (S.state stage.old) (S.state stage.new) }
    ensures failed { FailsByNode (S.state stage.old).nodes (S.state stage.new).nodes result }
    ensures brings { Settles (S.state stage.old).config (S.state stage.old).run }
{
    let config = config_of(stage);
    let finals = take_finals(rt, stage, &config)?;
    let proposals = sweep(rt, stage, Role::Coordinator, 1, MsgKind::Propose, 0)?;
    let passes = make_passes(rt, stage, &config, proposals + 1)?;
    Ok(finals + proposals + passes)
}
