//! Laws of running nodes. Each function does nothing, and its contract is the law.
ghost use Rattle.std.specs.Prelude.{◌≡◌, ◌^◌, List, []};
ghost use Rattle.gp_round.specs.Counts.{Counts};
ghost use Rattle.gp_msg.specs.declared.record.Record.{Record};
ghost use Rattle.gp_wire.specs.Legal.{LegalFrom};
ghost use Rattle.gp_run.specs.Legal.{Legal};
ghost use Rattle.gp_run.specs.Runs.{newest_first};
ghost use Rattle.gp_cell.specs.Lawful.{paxos_legal};

use crate::steps::MOST_RECORDS;

/// If each record of a list is legal after those before it, the list is a legal run.
pub fn a_list_by_the_rules_is_a_legal_run()
    ensures { (config : Counts) (list : List Record) → LegalFrom (paxos_legal config) [] list → Legal config (newest_first list) }
{}

/// Runs of fewer than 2^31 records are within the limit of a cell.
pub fn a_run_may_have_2_31_records()
    ensures { MOST_RECORDS ≡ 2 ^ 31 }
{}
