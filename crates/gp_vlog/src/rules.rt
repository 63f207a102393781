//! The rules of what an entry holds.
ghost use Rattle.std.specs.Prelude.{All, IsTrue, ◌↔◌};
ghost use Rattle.gp_command.specs.Spelling.{IsNumbered};
ghost use Rattle.gp_vlog.specs.Logs.{KeepsRules};

use crate::reading::is_round;
use gp_command::PROPOSERS;
use gp_history::Hist;
use gp_index::History;
use gp_msg::Durable;

/// A test of the rules of a log for a durable part: its rounds are round zero or may be begun by a
/// coordinator, a vote is of no later round than the acceptor's, and each command has the identity
/// of an offer. A log may hold the parts for which the result is true. Only a caller that does not
/// know this of its entries needs the test.
pub fn keeps_rules(part: &Durable) -> bool
    ensures { IsTrue result ↔ KeepsRules part.now }
{
    match part {
        Durable::Acceptor {
            round,
            voted,
            vote,
            ..
        } => {
            if !is_round(*round) {
                return false;
            }
            if !is_round(*voted) {
                return false;
            }
            if *round < *voted {
                return false;
            }
            are_numbered(vote)
        }
        Durable::Coordinator { round, .. } => is_round(*round),
    }
}

fn are_numbered(vote: &History) -> bool
    ensures { IsTrue result ↔ All (λ c. IsNumbered c.id) vote.now }
{
    for i in 0..vote.len() {
        let id = vote.at(i).id();
        if id.proposer >= PROPOSERS {
            return false;
        }
        if id.number < 1 {
            return false;
        }
    }
    true
}
