//! Holding the votes that a learner takes, by round and acceptor.
ghost use Rattle.std.specs.Prelude.{◌≡◌, OnOk};
ghost use Rattle.gp_history.specs.Sequence.{history_of};
ghost use Rattle.gp_learner.specs.Table.{votes_with};

use gp_command::NoMemory;
use gp_index::History;
use gp_learner::{HeldVote, held_of, hold};
use gp_round::Round;
use gp_safe::newer;
use std::collections::BTreeMap;

/// Holds a vote of an acceptor in a round if no vote of it is held there, or one with fewer
/// commands.
pub fn hold_newer(
    votes: &mut BTreeMap<(Round, u32), HeldVote>,
    round: Round,
    acceptor: u32,
    vote: &History,
) -> Result<(), NoMemory>
    ensures { OnOk result (votes.new.entries ≡ votes_with votes.old.entries round acceptor (history_of vote.now)) }
{
    if let Some(vote) = newer(held_of(votes, round, acceptor), vote)? {
        hold(votes, round, acceptor, vote)?;
    }
    Ok(())
}
