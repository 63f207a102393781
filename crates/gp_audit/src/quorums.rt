//! Quorums whose votes are all held, and their meets.
ghost use Rattle.std.specs.Prelude.{◌≡◌, ◌≤◌, ◌<◌, map, Some, IfOk};
ghost use Rattle.std.specs.Option.{option_map};
ghost use Rattle.gp_history.specs.Sequence.{history_of};
ghost use Rattle.gp_round.specs.Sets.{masks};
ghost use Rattle.gp_safe.specs.Meets.{quorum_meet, everyone, with_one};
ghost use Rattle.gp_learner.specs.Table.{vote_of};
ghost use Rattle.gp_audit.specs.Noting.{whole_quorums};
ghost use Rattle.gp_audit.specs.Sources.{first_in};

use gp_bounds::meet;
use gp_command::{Command, NoMemory};
use gp_history::Hist;
use gp_index::History;
use gp_learner::{HeldVote, held_of};
use gp_round::{Round, Subsets, is_member};
use std::alloc::Global;
use std::collections::BTreeMap;

/// The quorums of `size` out of n acceptors whose votes of a round are all held, in the order of
/// their masks. Each comes with the meet of these votes.
pub fn whole_quorums(
    alloc: Global,
    votes: &BTreeMap<(Round, u32), HeldVote>,
    round: Round,
    n: u32,
    size: u32,
) -> Result<Vec<(u8, History)>, NoMemory>
    requires few { n ≤ 7 }
    requires room { size ≤ n }
    ensures { IfOk result (λ v. map (λ q. (q.0, history_of q.1)) v.items ≡ whole_quorums (vote_of votes.now.entries round) n (masks n size)) }
{
    let mut quorums = Vec::new(alloc);
    for mask in Subsets::new(n, size) {
        if let Some(met) = meet_of(alloc, votes, round, n, mask)? {
            quorums.push((mask, met))?;
        }
    }
    Ok(quorums)
}

/// The mask of the first of these quorums whose meet has the command, or `None` if there is none.
pub fn first_in(quorums: &[(u8, History)], c: &Command) -> Option<u8>
    ensures { result ≡ first_in quorums.now c.now }
{
    for (mask, met) in quorums {
        if met.has(c) {
            return Some(*mask);
        }
    }
    None
}

// The meet of the votes of a set of acceptors in a round, if all of them are held and the set is
// not empty.
fn meet_of(
    alloc: Global,
    votes: &BTreeMap<(Round, u32), HeldVote>,
    round: Round,
    n: u32,
    mask: u8,
) -> Result<Option<History>, NoMemory>
    requires { n ≤ 7 }
    ensures { IfOk result (λ m. option_map history_of m ≡ quorum_meet (vote_of votes.now.entries round) everyone n mask) }
{
    let mut met = None;
    for i in 0..n {
        if is_member(mask, i) {
            let Some(vote) = held_of(votes, round, i) else {
                return Ok(None);
            };
            met = Some(and_vote(alloc, met, vote)?);
        }
    }
    Ok(met)
}

// The meet with one more vote.
fn and_vote(alloc: Global, met: Option<History>, vote: &History) -> Result<History, NoMemory>
    ensures { IfOk result (λ m. with_one (Some (history_of vote.now)) (Some (option_map history_of met)) ≡ Some (Some (history_of m))) }
{
    match met {
        None => {
            let first = vote.copy()?;
            Ok(first)
        }
        Some(met) => meet(alloc, &met, vote),
    }
}
