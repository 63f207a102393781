//! The safe choice from the answers of phase 1.
ghost use Rattle.std.specs.Prelude.{◌≡◌, ◌≤◌, IfOk, Option};
ghost use Rattle.std.specs.Option.{option_map, option_copied};
ghost use Rattle.gp_history.specs.Sequence.{history_of};
ghost use Rattle.gp_safe.specs.Choice.{reply_of, reply_by, top_round, votes_at, answers_by, lowest, safe_choice};
ghost use Rattle.gp_safe.specs.Counting.{AreConsistent, IsLeastChoice, IsSafe};

use crate::meets::{Values, join_of_meets};
use gp_command::NoMemory;
use gp_history::Hist;
use gp_index::History;
use gp_round::{Config, Round};
use std::alloc::Global;

/// What an acceptor answered in phase 1: the last round in which it voted, and its vote there.
#[derive(Drop)]
pub struct Answer {
    pub acceptor: u32,
    pub round: Round,
    pub vote: History,
}

/// The safe choice from the answers of acceptors.
///
/// The choice is made at the greatest round among the answers, from the quorums of that round of
/// the least size. Such a quorum counts if all its members that answered did so with that round,
/// and some member did. If a quorum counts, the choice is the join of the meets of the votes of
/// those that count, in order of their masks. Otherwise it is the vote of the acceptor with the
/// lowest number that answered with that round. If no acceptor of the configuration answered, it is
/// the empty history. This follows the provably safe values of Lamport, *Generalized Consensus and
/// Paxos*, 2005. If an acceptor answered several times, its first answer is used. Answers of
/// acceptors that are not in the configuration are ignored. `NoMemory` if memory runs out.
///
/// Suppose that the acceptors that answered are a quorum of phase 1, and that the meets of the
/// quorums of the least size that count are compatible in pairs. Then the choice extends each value
/// that a quorum of that round may still choose, whatever its members that did not answer have
/// voted for. If a quorum counts, the choice is also the least upper bound of the meets of the
/// counting quorums of every size.
#[tactic(auto, using(gp_history::proofs::Pushing::history_of_nothing))]
pub fn pick(alloc: Global, config: &Config, answers: &[Answer]) -> Result<History, NoMemory>
    ensures choice { IfOk result (λ h. history_of h ≡ safe_choice config.now.acceptors (reply_by answers.now)) }
    ensures least { IfOk result (λ h. IsLeastChoice config.now.acceptors (reply_by answers.now) (history_of h)) }
    ensures safe { IfOk result (λ h. AreConsistent config.now.acceptors (reply_by answers.now)
        → IsSafe config.now.acceptors (reply_by answers.now) (history_of h)) }
{
    let n = config.acceptors();
    let round = top_round(answers, n);
    let votes = Votes { answers, round };
    if let Some(joined) = join_of_meets(alloc, &votes, n, config.quorum(round.mode))? {
        return Ok(joined);
    }
    match lowest(&votes, n) {
        Some(vote) => vote.copy(),
        None => Ok(History::empty(alloc)?),
    }
}

// The first answer of an acceptor.
fn reply_by(answers: &[Answer], acceptor: u32) -> Option<&Answer>
    ensures { option_map reply_of (option_copied result) ≡ reply_by answers.now acceptor }
{
    for answer in answers {
        if answer.acceptor == acceptor {
            return Some(answer);
        }
    }
    None
}

// The greatest round among the answers.
fn top_round(answers: &[Answer], n: u32) -> Round
    ensures { result ≡ top_round (reply_by answers.now) n }
{
    let mut top = Round::zero();
    for i in 0..n {
        if let Some(answer) = reply_by(answers, i) {
            if top < answer.round {
                top = answer.round;
            }
        }
    }
    top
}

// The votes of the acceptors that answered with one round, by acceptor. The acceptors that answered
// count.
#[derive(Drop)]
struct Votes<'a> {
    answers: &'a [Answer],
    round: Round,
}

impl<'a> Values for Votes<'a> {
    ghost value = { λ v. votes_at v.round (reply_by v.answers.now) };

    ghost within = { λ v. answers_by (reply_by v.answers.now) };

    fn value(&self, i: u32) -> Option<&History> {
        let answer = reply_by(self.answers, i)?;
        (answer.round == self.round).then_some(&answer.vote)
    }

    fn is_within(&self, i: u32) -> bool {
        reply_by(self.answers, i).is_some()
    }
}

// The value of the lowest acceptor that has one.
#[tactic(auto, using(crate::proofs::Choosing::lowest_found))]
fn lowest<'a>(votes: &'a Votes<'_>, n: u32) -> Option<&'a History>
    requires { n ≤ 7 }
    ensures { option_map history_of (option_copied result) ≡ lowest (votes_at votes.now.round (reply_by votes.now.answers.now)) n }
{
    for i in 0..n {
        if let Some(value) = votes.value(i) {
            return Some(value);
        }
    }
    None
}
