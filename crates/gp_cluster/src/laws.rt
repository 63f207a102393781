//! Laws of legal runs in which the proposers made the offers of a script. Each function does
//! nothing, and its contract is the law.
ghost use Rattle.std.specs.Prelude.{◌<◌, ◌↔◌, ℕ, List};
ghost use Rattle.std.specs.List.{All, Contains};
ghost use Rattle.gp_command.specs.declared.command.Command.{Command};
ghost use Rattle.gp_command.specs.Views.{DraftView};
ghost use Rattle.gp_round.specs.Counts.{Counts};
ghost use Rattle.gp_msg.specs.declared.record.Record.{Record};
ghost use Rattle.gp_msg.specs.Messages.{Offered};
ghost use Rattle.gp_run.specs.Legal.{Legal};
ghost use Rattle.gp_run.specs.Messages.{messages};
ghost use Rattle.gp_run.specs.Runs.{newest_first};
ghost use Rattle.gp_driver.specs.Settled.{AllLearned};
ghost use Rattle.gp_seats.specs.Offering.{IsKnown};
ghost use Rattle.gp_cluster.specs.Offers.{AreOffered, ShowAsMany, commands_of};

/// If each learner shows at least as many commands as the script has offers, each shows every
/// command that was offered.
pub fn learners_with_as_many_commands_hold_them_all()
    ensures { (config : Counts) → 0 < config.acceptors → (offers : List (ℕ × DraftView)) → All IsKnown offers → (list : List Record)
        → Legal config (newest_first list) → AreOffered offers list → ShowAsMany config offers (newest_first list) → AllLearned config (newest_first list) }
{}

/// If each learner shows every command that was offered, each shows at least as many commands as
/// the script has offers.
pub fn learners_that_hold_all_have_as_many_commands()
    ensures { (config : Counts) → 0 < config.acceptors → (offers : List (ℕ × DraftView)) → All IsKnown offers → (list : List Record)
        → Legal config (newest_first list) → AreOffered offers list → AllLearned config (newest_first list) → ShowAsMany config offers (newest_first list) }
{}

/// The commands that were offered are exactly those that the offers of the script make.
pub fn offered_commands_are_those_of_the_script()
    ensures { (config : Counts) (offers : List (ℕ × DraftView)) → All IsKnown offers → (list : List Record) → Legal config (newest_first list)
        → AreOffered offers list → (c : Command) → Contains (messages (newest_first list)) (Offered c) ↔ Contains (commands_of offers) c }
{}
