//! Laws of the drivers. Each function does nothing, and its contract is the law.
ghost use Rattle.std.specs.Prelude.{◌≡◌, ◌+◌, ◌*◌, ◌<◌, ◌≤◌, ℕ, List, Result, IfErr, length};
ghost use Rattle.gp_command.specs.declared.draft.Draft.{Draft};
ghost use Rattle.gp_round.specs.Counts.{Counts};
ghost use Rattle.gp_round.specs.Ranges.{AreInRange};
ghost use Rattle.gp_round.specs.declared.config.TheConstants.{LAST_COUNT};
ghost use Rattle.gp_msg.specs.Messages.{Stamped, Entry};
ghost use Rattle.gp_run.specs.Messages.{messages};
ghost use Rattle.gp_run.specs.Legal.{Legal};
ghost use Rattle.gp_run.specs.TopCount.{top_count};
ghost use Rattle.gp_world.specs.State.{WorldState};
ghost use Rattle.gp_driver.specs.Settling.{checkpoints, settle};
ghost use Rattle.gp_driver.specs.Settled.{Settles};
ghost use Rattle.gp_driver.specs.Driving.{drive_multi};
ghost use Rattle.gp_driver.specs.Driven.{AreNoCheckpoints, DrivesMulti};
ghost use Rattle.gp_driver.specs.Stages.{HasDriven};
ghost use Rattle.gp_driver.specs.Worlds.{stage_of};
ghost use Rattle.gp_driver.specs.declared.stage.StageFault.{StageFault};
ghost use Rattle.gp_driver.specs.declared.stage.StageFault.TheVariants.{NoMemory};

/// Settling a legal run that has enough counts of rounds left brings every offered command to every
/// learner. It takes at most one pass more than checkpoints were offered. The contract gives the
/// exact number of events.
pub fn settling_brings_all_that_was_offered()
    ensures { (config : Counts) (es : List Entry) → AreInRange config.acceptors config.coordinators config.learners
        → Legal config es → top_count config es + checkpoints (messages es) < LAST_COUNT → Settles config es }
{}

/// In a multi round of three coordinators, one of which does nothing, every learner learns each
/// offered draft before the next one is offered, whether or not the drafts conflict. No draft is a
/// checkpoint. The contract gives the exact number of events.
pub fn driving_needs_no_third_coordinator()
    ensures { (config : Counts) (drafts : List Draft) → AreInRange config.acceptors config.coordinators config.learners
        → config.coordinators ≡ 3 → AreNoCheckpoints drafts → DrivesMulti config drafts }
{}

/// The length of a settled run is bounded by the length of the run before and the number of its
/// messages. The length of a driven run is bounded by the number of drafts. Both bounds hold for
/// every configuration. At most as many checkpoints were offered as messages were sent.
pub fn runs_of_drivers_are_short()
    ensures settled { (config : Counts) (es : List Entry) → AreInRange config.acceptors config.coordinators config.learners
        → Settles config es → length (settle config es) ≤ length es + 71 * length (messages es) + 50 }
    ensures driven { (config : Counts) (drafts : List Draft) → AreInRange config.acceptors config.coordinators config.learners
        → DrivesMulti config drafts → length (drive_multi config drafts) ≤ 66 + 45 * length drafts }
    ensures checkpoints { (ms : List Stamped) → checkpoints ms ≤ length ms }
{}

/// A driver of a world fails only if memory runs out.
pub fn a_driver_of_a_world_fails_only_without_memory()
    ensures { (old new : WorldState) (target : List Entry) (result : Result ℕ StageFault)
        → HasDriven (stage_of old) (stage_of new) target result → IfErr result (λ fault. fault ≡ NoMemory) }
{}
