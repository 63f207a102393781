//! The join of the meets of all quorums of one size.
ghost use Rattle.std.specs.Prelude.{◌≡◌, ◌≤◌, ◌<◌, ◌&&◌, ℕ, Bool, true, Option, Some, IfOk};
ghost use Rattle.std.specs.List.{list_all};
ghost use Rattle.std.specs.Option.{option_map, option_copied, is_some};
ghost use Rattle.gp_history.specs.History.{History, has};
ghost use Rattle.gp_history.specs.Sequence.{history_of};
ghost use Rattle.gp_round.specs.Sets.{masks, bit};
ghost use Rattle.gp_safe.specs.Cow.{cow_history};
ghost use Rattle.gp_safe.specs.Covered.{HasValue, HasAllValues};
ghost use Rattle.gp_safe.specs.Meets.{with_one, gathered, quorum_meet, quorum_meets, all_joined, with_meet};

use crate::cow::HistoryCow;
use crate::news::has_near;
use gp_bounds::{join_onto, meet};
use gp_command::NoMemory;
use gp_history::Hist;
use gp_index::History;
use gp_round::{Subsets, is_member};
use std::alloc::Global;

/// The values of senders, by the numbers of the senders.
pub trait Values {
    /// The value of a sender.
    ghost value: { Self → ℕ → Option History };

    /// Whether a sender counts.
    ghost within: { Self → ℕ → Bool };

    /// The value of a sender, if it has one. Its number must be below 8.
    fn value(&self, i: u32) -> Option<&History>
        requires { i < 8 }
        ensures { option_map history_of (option_copied result) ≡ value self.now i };

    /// Whether a sender counts. Its number must be below 8. A set of senders is whole if each
    /// member that counts has a value.
    fn is_within(&self, i: u32) -> bool
        requires { i < 8 }
        ensures { result ≡ within self.now i };
}

/// The join of the meets of those sets with `size` of n senders that are whole and have a member
/// that counts, in order of their masks. `None` if there is no such set. n must be at most 7, and
/// `size` at most n. `NoMemory` if memory runs out.
#[tactic(auto, using(crate::proofs::Gathering::one_more_meet))]
pub fn join_of_meets<V: Values>(
    alloc: Global,
    values: &V,
    n: u32,
    size: u32,
) -> Result<Option<History>, NoMemory>
    requires few { n ≤ 7 }
    requires room { size ≤ n }
    ensures { IfOk result (λ j. option_map history_of j ≡ all_joined (quorum_meets (V.value values.now) (V.within values.now) n (masks n size))) }
{
    let mut joined = None;
    let mut whole = false;
    for mask in Subsets::new(n, size) {
        if !whole {
            let met = quorum_meet(alloc, values, n, mask)?;
            joined = with_meet(joined, met)?;
            whole = has_all_values(joined.as_ref(), values, n);
        }
    }
    Ok(joined)
}

// Whether a join has all commands of the values of all senders, so that no further meet adds a
// command.
fn has_all_values<V: Values>(joined: Option<&History>, values: &V, n: u32) -> bool
    requires { n ≤ 7 }
    ensures all { result ≡ true → HasAllValues (option_map history_of (option_copied joined.entry)) (V.value values.now) (V.within values.now) n }
{
    let Some(joined) = joined else {
        return false;
    };
    for i in 0..n {
        if !has_value_of(joined, values, i) {
            return false;
        }
    }
    true
}

// Whether a history has all commands of the value of a sender, if it has a value.
fn has_value_of<V: Values>(joined: &History, values: &V, i: u32) -> bool
    requires { i < 8 }
    ensures { result ≡ true → HasValue (history_of joined.now) (V.value values.now i) }
{
    match values.value(i) {
        Some(value) => has_all_of(joined, value),
        None => true,
    }
}

// Whether a history has all commands of another.
fn has_all_of(joined: &History, value: &History) -> bool
    ensures { result ≡ list_all (has (history_of joined.now)) value.now }
{
    for i in 0..value.len() {
        let c = value.at(i);
        if !has_near(joined, c, i) {
            return false;
        }
    }
    true
}

// The join so far, with one more meet if there is one.
#[tactic(auto, using(crate::proofs::Gathering::join_empty))]
fn with_meet(joined: Option<History>, met: Option<History>) -> Result<Option<History>, NoMemory>
    ensures { IfOk result (λ j. option_map history_of j ≡ with_meet (option_map history_of joined) (option_map history_of met)) }
{
    match (joined, met) {
        (None, met) => Ok(met),
        (Some(joined), None) => Ok(Some(joined)),
        (Some(joined), Some(met)) => Ok(Some(join_onto(joined, &met)?)),
    }
}

/// The meet of the values of one set, if it is whole and has a member that counts. `NoMemory` if
/// memory runs out.
pub(crate) fn quorum_meet<V: Values>(
    alloc: Global,
    values: &V,
    n: u32,
    mask: u8,
) -> Result<Option<History>, NoMemory>
    requires { n ≤ 7 }
    ensures { IfOk result (λ m. option_map history_of m ≡ quorum_meet (V.value values.now) (V.within values.now) n mask) }
{
    if !is_whole(values, n, mask) {
        return Ok(None);
    }
    let mut met = None;
    for i in 0..n {
        if is_member(mask, i) && values.is_within(i) {
            if let Some(value) = values.value(i) {
                met = Some(and_value(alloc, met, value)?);
            }
        }
    }
    match met {
        None => Ok(None),
        Some(met) => Ok(Some(met.into_owned()?)),
    }
}

/// Whether each member of a set that counts has a value.
pub(crate) fn is_whole<V: Values>(values: &V, n: u32, mask: u8) -> bool
    requires { n ≤ 7 }
    ensures { result ≡ is_some (gathered (V.value values.now) (λ i. bit mask i && V.within values.now i) n) }
{
    for i in 0..n {
        if is_member(mask, i) && values.is_within(i) && values.value(i).is_none() {
            return false;
        }
    }
    true
}

// The meet with one more value. The meet of one value borrows it.
fn and_value<'a>(
    alloc: Global,
    met: Option<HistoryCow<'a>>,
    value: &'a History,
) -> Result<HistoryCow<'a>, NoMemory>
    ensures { IfOk result (λ m. with_one (Some (history_of value.now)) (Some (option_map cow_history met.entry)) ≡ Some (Some (cow_history m))) }
{
    match met {
        None => Ok(HistoryCow::Borrowed(value)),
        Some(met) => Ok(HistoryCow::Owned(meet(alloc, met.history(), value)?)),
    }
}
