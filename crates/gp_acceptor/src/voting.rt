//! The vote that the held values give, and the message that sends it.
ghost use Rattle.std.specs.Prelude.{◌≡◌, ◌<◌, [], ◌∷◌, IfOk, map, Option, ◌&&◌};
ghost use Rattle.std.specs.Option.{option_map, option_to_list, option_copied};
ghost use Rattle.gp_history.specs.Sequence.{history_of};
ghost use Rattle.gp_msg.specs.Messages.{message_of, maybe_stamped, InEpoch, Voted};
ghost use Rattle.gp_safe.specs.Cow.{cow_history};
ghost use Rattle.gp_acceptor.specs.State.{histories};
ghost use Rattle.gp_acceptor.specs.Revotes.{Settles, HasAgreed, agreed_with};
ghost use Rattle.gp_acceptor.specs.Table.{next_vote, told_vote, agreed, value_at};

use crate::held::{Held, agreed};
use gp_command::NoMemory;
use gp_history::Hist;
use gp_index::History;
use gp_msg::{Msg, Outs};
use gp_round::{Config, Mode, Round};
use gp_safe::{HistoryCow, Replaced, join, join_news};
use std::alloc::Global;

/// The vote that the held values give after the new value of one coordinator, if they give one. In
/// a round that is not fast and in which it has voted, `None` says that the vote stays as it is.
/// `NoMemory` if memory runs out.
///
/// In such a round the vote must have what quorums of coordinators agreed on before the new value.
pub fn revote(
    alloc: Global,
    config: &Config,
    voted: Round,
    round: Round,
    vote: &History,
    values: &[Option<History>],
    sender: u32,
    newer: Option<&History>,
) -> Result<Option<History>, NoMemory>
    requires sender { sender < config.now.coordinators }
    requires agreed { HasAgreed config.now.coordinators voted round (history_of vote.now) (value_at (histories values.now)) }
    ensures { IfOk result (λ w. Settles voted round (history_of vote.now) (agreed_with config.now.coordinators round (histories values.now) sender (option_map history_of (option_copied newer.entry))) (option_map history_of w)) }
{
    let values = Held { values };
    if voted == round && round.mode == Mode::Multi {
        let Some(newer) = newer else {
            return Ok(None);
        };
        let n = config.coordinators();
        let size = config.coordinator_quorum(Mode::Multi);
        return join_news(alloc, vote, &values, sender, newer, n, size);
    }
    let held = Replaced {
        values: &values,
        sender,
        value: newer,
    };
    let agreed = agreed(alloc, config, round, &held)?;
    next_vote(alloc, voted, round, vote, agreed)
}

/// The vote that replaces the old one, if one does. `NoMemory` if memory runs out.
///
/// The first vote of a round is what quorums of coordinators agreed on. In a round that is not
/// fast, each later vote is the join of the vote before it with what they agreed on then.
pub fn next_vote(
    alloc: Global,
    voted: Round,
    round: Round,
    vote: &History,
    agreed: Option<HistoryCow<'_>>,
) -> Result<Option<History>, NoMemory>
    ensures { IfOk result (λ v. option_map history_of v ≡ next_vote voted round (history_of vote.now) (option_map cow_history agreed.entry)) }
{
    let Some(agreed) = agreed else {
        return Ok(None);
    };
    if voted < round {
        return Ok(Some(agreed.into_owned()?));
    }
    if voted == round && !round.mode.is_fast() {
        return Ok(Some(join(alloc, vote, agreed.history())?));
    }
    Ok(None)
}

/// The message that sends the next vote, if that is the first of its round or has more commands
/// than the vote before it. `NoMemory` if memory runs out.
pub fn told_vote(
    alloc: Global,
    epoch: u32,
    acceptor: u32,
    voted: Round,
    round: Round,
    vote: &History,
    next: Option<&History>,
) -> Result<Outs, NoMemory>
    ensures { IfOk result (λ outs. map message_of outs ≡ option_to_list (maybe_stamped epoch (told_vote acceptor voted round (history_of vote.now) (option_map history_of (option_copied next.entry))))) }
{
    match next {
        Some(next) if voted < round || vote.len() < next.len() => {
            sent_vote(alloc, epoch, acceptor, round, next)
        }
        _ => Ok(Outs::new(alloc)),
    }
}

/// The message that sends a vote. `NoMemory` if memory runs out.
pub fn sent_vote(
    alloc: Global,
    epoch: u32,
    acceptor: u32,
    round: Round,
    vote: &History,
) -> Result<Outs, NoMemory>
    ensures { IfOk result (λ outs. map message_of outs ≡ InEpoch epoch (Voted round acceptor (history_of vote.now)) ∷ []) }
{
    let mut outs = Outs::new(alloc);
    outs.push(Msg::P2b {
        epoch,
        round,
        acceptor,
        vote: vote.copy()?,
    })?;
    Ok(outs)
}
