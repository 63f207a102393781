//! Whether the commands of a history have distinct identities.
ghost use Rattle.std.specs.Prelude.{◌≡◌, ◌↔◌, ◌≤◌, IsTrue, false, length};
ghost use Rattle.gp_history.specs.Sequence.{history_of};
ghost use Rattle.gp_replica.specs.Runs.{HasDistinctIds};
ghost use Rattle.gp_replica.specs.Identities.{HasIdBefore};

use gp_command::CommandId;
use gp_history::Hist;
use gp_index::History;

/// Whether no two commands of the history have the same identity. A replica runs only such
/// histories.
pub fn has_distinct_ids(learned: &History) -> bool
    ensures distinct { IsTrue result → HasDistinctIds (history_of learned.now) }
    ensures repeated { result ≡ false → ¬ HasDistinctIds (history_of learned.now) }
{
    for place in 0..learned.len() {
        if is_taken(learned, place, learned.at(place).id()) {
            return false;
        }
    }
    true
}

// Whether a command before a place has this identity.
fn is_taken(learned: &History, place: usize, id: CommandId) -> bool
    requires { place ≤ length learned.now }
    ensures { IsTrue result ↔ HasIdBefore learned.now place id }
{
    for i in 0..place {
        if learned.at(i).id() == id {
            return true;
        }
    }
    false
}
