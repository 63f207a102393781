//! The known history, with what the meets of quorums add to it.
ghost use Rattle.std.specs.Prelude.{◌≡◌, ◌≤◌, ◌&&◌, ◌||◌, [], Option, IfOk, unwrap_or};
ghost use Rattle.std.specs.Option.{option_map, option_copied, is_some};
ghost use Rattle.gp_history.specs.History.{has};
ghost use Rattle.gp_history.specs.Sequence.{history_of};
ghost use Rattle.gp_history.specs.Bounds.{joined};
ghost use Rattle.gp_round.specs.Sets.{bit};
ghost use Rattle.gp_safe.specs.Meets.{add_meet};
ghost use Rattle.gp_safe.specs.News.{is_in, all_have};

use crate::joins::join;
use crate::meets::Values;
use gp_bounds::join_onto;
use gp_command::{Command, NoMemory};
use gp_history::Hist;
use gp_index::History;
use gp_round::is_member;
use std::alloc::Global;

// The known history so far.
pub(crate) fn latest<'a>(known: &'a History, news: &'a Option<History>) -> &'a History
    ensures { history_of result.now ≡ unwrap_or (option_map history_of news.now) (history_of known.now) }
{
    match news {
        Some(news) => news,
        None => known,
    }
}

// The known history so far, joined with a meet if there is one.
pub(crate) fn with_new(
    alloc: Global,
    known: &History,
    news: Option<History>,
    met: Option<History>,
) -> Result<Option<History>, NoMemory>
    ensures joined { IfOk result (λ j. unwrap_or (option_map history_of j) (history_of known.now) ≡ joined (unwrap_or (option_map history_of news) (history_of known.now)) (add_meet (option_map history_of met) [])) }
    ensures some { IfOk result (λ j. is_some j ≡ (is_some news || is_some met)) }
{
    match (news, met) {
        (news, None) => Ok(news),
        (None, Some(met)) => Ok(Some(join(alloc, known, &met)?)),
        (Some(news), Some(met)) => Ok(Some(join_onto(news, &met)?)),
    }
}

// Whether a command is in each value of the members of one set that count.
pub(crate) fn all_have<V: Values>(values: &V, n: u32, mask: u8, c: &Command, near: usize) -> bool
    requires { n ≤ 7 }
    ensures { result ≡ all_have (V.value values.now) (λ i. bit mask i && V.within values.now i) n c.now }
{
    for i in 0..n {
        if is_member(mask, i) && values.is_within(i) && !is_in(values.value(i), c, near) {
            return false;
        }
    }
    true
}

// Whether a command is in a value, if there is one.
fn is_in(value: Option<&History>, c: &Command, near: usize) -> bool
    ensures { result ≡ is_in (option_map history_of (option_copied value.entry)) c.now }
{
    match value {
        Some(value) => has_near(value, c, near),
        None => true,
    }
}

// Whether a history has a command. The search starts at `near`, since the command is usually close
// to it.
#[tactic(auto, using(crate::proofs::Adding::has_from_place))]
pub(crate) fn has_near(h: &History, c: &Command, near: usize) -> bool
    ensures { result ≡ has (history_of h.now) c.now }
{
    h.place_of(c, near).is_some()
}
