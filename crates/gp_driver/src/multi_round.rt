//! Driving: drafts are learned one after another in one multi round, in which coordinator 2 takes
//! no part.
ghost use Rattle.std.specs.Prelude.{◌≡◌, ◌≤◌, ◌<◌, ◌^◌, [], ◌∷◌, length};
ghost use Rattle.gp_msg.specs.declared.event.Event.TheVariants.{Begin};
ghost use Rattle.gp_run.specs.Runs.{entry_after};
ghost use Rattle.gp_driver.specs.Driving.{first_round, opened, driven, all_driven, drive_multi};
ghost use Rattle.gp_driver.specs.Driven.{AreNoCheckpoints, DrivesMulti};
ghost use Rattle.gp_driver.specs.Stages.{HasDriven, IsProposer, Nobody, StageGoes, FailsByNode};

use crate::phases::{answer, vote};
use crate::stage::{Stage, StageFault, config_of};
use crate::sweep::{Role, make, sweep};
use gp_command::Draft;
use gp_msg::{Event, MsgKind};
use gp_round::{Config, Mode, Round};
use std::sync::Wait;

// Coordinator 0 begins the first round.
fn begin_first<S: Stage, W: Wait>(rt: &W, stage: &mut S) -> Result<u64, StageFault>
    requires ready { (S.state stage.old).is_ready }
    requires two { 2 ≤ (S.state stage.old).config.coordinators }
    requires room { length (S.state stage.old).run < 2 ^ 31 }
    ensures driven { HasDriven (S.state stage.old) (S.state stage.new)
        (entry_after (S.state stage.old).config (S.state stage.old).run (Begin 0 first_round) ∷ (S.state stage.old).run) result }
    ensures goes { StageGoes IsProposer (S.state stage.old) (S.state stage.new) }
    ensures failed { FailsByNode (S.state stage.old).nodes (S.state stage.new).nodes result }
{
    let round = Round {
        count: 1,
        mode: Mode::Multi,
        lead: 0,
    };
    make(
        rt,
        stage,
        Event::Begin {
            coordinator: 0,
            round,
        },
    )
}

// Coordinator 0 begins the first round, and coordinators 0 and 1 lead it.
fn lead_first<S: Stage, W: Wait>(rt: &W, stage: &mut S, config: &Config) -> Result<u64, StageFault>
    requires ready { (S.state stage.old).is_ready }
    requires config { config.now ≡ (S.state stage.old).config }
    requires two { 2 ≤ (S.state stage.old).config.coordinators }
    requires nothing { (S.state stage.old).run ≡ [] }
    requires room { length (opened (S.state stage.old).config) ≤ 2 ^ 31 }
    ensures driven { HasDriven (S.state stage.old) (S.state stage.new)
        (opened (S.state stage.old).config) result }
    ensures goes { StageGoes IsProposer (S.state stage.old) (S.state stage.new) }
    ensures failed { FailsByNode (S.state stage.old).nodes (S.state stage.new).nodes result }
{
    let begun = begin_first(rt, stage)?;
    let led = sweep(rt, stage, Role::Coordinator, 2, MsgKind::P1a, 0)?;
    let answered = answer(rt, stage, config, 2, 0)?;
    let heard = vote(rt, stage, config, 0)?;
    Ok(begun + led + answered + heard)
}

// Proposer 0 offers a draft, and coordinators 0 and 1 bring it to all learners.
fn drive_one<S: Stage, W: Wait>(
    rt: &W,
    stage: &mut S,
    config: &Config,
    draft: Draft,
) -> Result<u64, StageFault>
    requires ready { (S.state stage.old).is_ready }
    requires config { config.now ≡ (S.state stage.old).config }
    requires two { 2 ≤ (S.state stage.old).config.coordinators }
    requires room { length (driven (S.state stage.old).config draft (S.state stage.old).run) ≤ 2 ^ 31 }
    ensures driven { HasDriven (S.state stage.old) (S.state stage.new)
        (driven (S.state stage.old).config draft (S.state stage.old).run) result }
    ensures goes { StageGoes Nobody (S.state stage.old) (S.state stage.new) }
    ensures failed { FailsByNode (S.state stage.old).nodes (S.state stage.new).nodes result }
{
    let start = stage.messages();
    let offered = make(rt, stage, Event::Offer { proposer: 0, draft })?;
    let pushed = sweep(rt, stage, Role::Coordinator, 2, MsgKind::Propose, start)?;
    let heard = vote(rt, stage, config, start)?;
    Ok(offered + pushed + heard)
}

// Drives one draft after another.
fn drive_each<S: Stage, W: Wait>(
    rt: &W,
    stage: &mut S,
    config: &Config,
    drafts: Vec<Draft>,
) -> Result<u64, StageFault>
    requires ready { (S.state stage.old).is_ready }
    requires config { config.now ≡ (S.state stage.old).config }
    requires two { 2 ≤ (S.state stage.old).config.coordinators }
    requires room { length (all_driven (S.state stage.old).config drafts.items (S.state stage.old).run) ≤ 2 ^ 31 }
    ensures driven { HasDriven (S.state stage.old) (S.state stage.new)
        (all_driven (S.state stage.old).config drafts.items (S.state stage.old).run) result }
    ensures goes { StageGoes Nobody (S.state stage.old) (S.state stage.new) }
    ensures failed { FailsByNode (S.state stage.old).nodes (S.state stage.new).nodes result }
{
    let mut events: u64 = 0;
    for draft in drafts {
        events += drive_one(rt, stage, config, draft)?;
    }
    Ok(events)
}

/// Drives drafts, none of which is a checkpoint, in an empty run with three coordinators. The
/// driven run must have at most 2^31 events. Every learner learns each draft before the next one is
/// offered, whether or not the drafts conflict. Returns the number of events that this took. The
/// first fault of a step ends it.
///
/// Coordinator 0 begins the multi round of count 1, and coordinators 0 and 1 lead it through phase
/// 1 into phase 2. Then proposer 0 offers one draft after another. Both coordinators send it to the
/// acceptors, and the acceptors send their votes to the learners. Coordinator 2 takes no part.
///
/// `NoMemory` means that memory ran out, which is possible at any step. `Disk` and `Full` are
/// returned only if the stage's count of faults has risen or is 2^64 - 1: for `Full` it has risen
/// by one. `Disk` is a fault of the disk of a listed node. The numbers of `Full` are too great for
/// an event, not a crash, that fits the run as it is then. After any other result the count is
/// unchanged. After any result but `Disk` the counts of the disks of the listed nodes are
/// unchanged. After a fault the configuration is the same and the run extends the run before; no
/// clause says which events were made.
pub fn drive_multi<S: Stage, W: Wait>(
    rt: &W,
    stage: &mut S,
    drafts: Vec<Draft>,
) -> Result<u64, StageFault>
    requires ready { (S.state stage.old).is_ready }
    requires three { (S.state stage.old).config.coordinators ≡ 3 }
    requires nothing { (S.state stage.old).run ≡ [] }
    requires plain { AreNoCheckpoints drafts.items }
    requires room { length (drive_multi (S.state stage.old).config drafts.items) ≤ 2 ^ 31 }
    ensures driven { HasDriven (S.state stage.old) (S.state stage.new)
        (drive_multi (S.state stage.old).config drafts.items) result }
    ensures goes { StageGoes Nobody (S.state stage.old) (S.state stage.new) }
    ensures failed { FailsByNode (S.state stage.old).nodes (S.state stage.new).nodes result }
    ensures brings { DrivesMulti (S.state stage.old).config drafts.items }
{
    let config = config_of(stage);
    let opened = lead_first(rt, stage, &config)?;
    let driven = drive_each(rt, stage, &config, drafts)?;
    Ok(opened + driven)
}
