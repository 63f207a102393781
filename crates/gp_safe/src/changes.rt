//! What a value of one sender adds when it replaces an older one.
ghost use Rattle.std.specs.Prelude.{◌≡◌, ◌≤◌, ◌<◌, ◌&&◌, ◌||◌, ℕ, not, false, true, [], length, IsTrue, Option, Some, IfOk, OnSome, unwrap_or};
ghost use Rattle.std.specs.List.{list_any, Contains};
ghost use Rattle.std.specs.Option.{option_map, option_copied, is_some};
ghost use Rattle.gp_command.specs.declared.command.Command.{Command};
ghost use Rattle.gp_history.specs.History.{has};
ghost use Rattle.gp_history.specs.Sequence.{history_of, no_repeat};
ghost use Rattle.gp_history.specs.Canonical.{is_ready};
ghost use Rattle.gp_history.specs.Bounds.{joined};
ghost use Rattle.gp_round.specs.Sets.{masks, members, bit};
ghost use Rattle.gp_safe.specs.Held.{value_held};
ghost use Rattle.gp_safe.specs.Meets.{gathered, add_meet};
ghost use Rattle.gp_safe.specs.News.{is_new, Addition, AdditionAmong};
ghost use Rattle.gp_safe.specs.Changes.{opens, may_add, IsFromOld, IsAnyHistory, AreHistories, IsMetKnown, NoneFrom, known_with, known_with_one};

use crate::held::Replaced;
use crate::meets::{Values, is_whole, quorum_meet};
use crate::news::{all_have, has_near, latest, with_new};
use gp_command::{Command, NoMemory};
use gp_history::Hist;
use gp_history::walks::{common_start, is_behind};
use gp_index::History;
use gp_round::{Subsets, is_member};
use std::alloc::Global;

/// The known history, joined with the meets of those sets of `size` of n senders that are whole, in
/// order of their masks, after a value of one sender replaces its older one. The known history must
/// have the meets of the older values already. n must be at most 7, `size` at most n, and `sender`
/// below n. The result is `None` only if nothing is added. `NoMemory` if memory runs out.
///
/// The result is a history only if a command that was not known is in the values of all members of
/// some whole set. That history may still add nothing, for example if the members disagree on what
/// comes before the command.
pub fn join_news<V: Values>(
    alloc: Global,
    known: &History,
    values: &V,
    sender: u32,
    value: &History,
    n: u32,
    size: u32,
) -> Result<Option<History>, NoMemory>
    requires few { n ≤ 7 }
    requires room { size ≤ n }
    requires sender { sender < n }
    requires earlier { known_with (history_of known.now) (V.value values.now) (V.within values.now) n size ≡ history_of known.now }
    ensures joined { IfOk result (λ j. unwrap_or (option_map history_of j) (history_of known.now)
        ≡ known_with (history_of known.now) (value_held (V.value values.now) sender (history_of value.now)) (V.within values.now) n size) }
    ensures addition { IfOk result (λ j. OnSome j (AdditionAmong (history_of known.now) (value_held (V.value values.now) sender (history_of value.now)) (V.within values.now) n (masks n size))) }
{
    let held = Replaced {
        values,
        sender,
        value: Some(value),
    };
    let from = shared_start(values.value(sender), value);
    let mut more = may_add(known, &held, value, from, n, size);
    if !more {
        return Ok(None);
    }
    let mut news = None;
    for mask in Subsets::new(n, size) {
        if more {
            let met = new_meet(
                alloc,
                latest(known, &news),
                values,
                sender,
                value,
                from,
                n,
                mask,
            )?;
            let adds = met.is_some();
            news = with_new(alloc, known, news, met)?;
            more = !adds || may_add(latest(known, &news), &held, value, from, n, size);
        }
    }
    Ok(news)
}

// The number of commands at the start of a value that are an older value which it extends; 0 if it
// does not begin so.
fn shared_start(old: Option<&History>, new: &History) -> usize
    ensures within { result ≤ length new.now }
    ensures old { IsFromOld (option_map history_of (option_copied old.entry)) new.now result }
{
    let Some(old) = old else {
        return 0;
    };
    let from = common_start(old, new);
    if from == old.len() { from } else { 0 }
}

// Whether a sender has a value, or does not count.
fn is_there<V: Values>(values: &V, i: u32) -> bool
    requires { i < 8 }
    ensures there { result ≡ (is_some (V.value values.now i) || not (V.within values.now i)) }
    ensures history { IsAnyHistory (V.value values.now i) }
{
    values.value(i).is_some() || !values.is_within(i)
}

// How many senders have a value, or do not count.
fn count_there<V: Values>(values: &V, n: u32) -> u32
    requires { n ≤ 7 }
    ensures count { result ≡ members (λ i. is_some (V.value values.now i) || not (V.within values.now i)) n }
    ensures histories { AreHistories (V.value values.now) n }
{
    let mut count = 0;
    for i in 0..n {
        if is_there(values, i) {
            count += 1;
        }
    }
    count
}

// Whether a history has a command that is not known, while all commands before it there are.
fn is_open(h: &History, c: &Command, known: &History, near: usize) -> bool
    ensures { result ≡ (has (history_of h.now) c.now && is_ready (history_of h.now) (history_of known.now) c.now) }
{
    match h.place_of(c, near) {
        Some(place) => {
            !has_near(known, c, near)
                && is_behind(h, place, h, place, known, c, common_start(h, known))
        }
        None => false,
    }
}

// Whether a sender does not count, or its value has a command that is not known while all commands
// before it there are.
fn opens<V: Values>(values: &V, i: u32, c: &Command, known: &History, near: usize) -> bool
    requires { i < 8 }
    ensures { result ≡ opens (V.within values.now i) (V.value values.now i) (history_of known.now) c.now }
{
    if !values.is_within(i) {
        return true;
    }
    match values.value(i) {
        Some(h) => is_open(h, c, known, near),
        None => false,
    }
}

// How many senders open a command, as `opens` says of one.
fn count_open<V: Values>(values: &V, n: u32, c: &Command, known: &History, near: usize) -> u32
    requires { n ≤ 7 }
    ensures { result ≡ members (λ i. opens (V.within values.now i) (V.value values.now i) (history_of known.now) c.now) n }
{
    let mut count = 0;
    for i in 0..n {
        if opens(values, i, c, known, near) {
            count += 1;
        }
    }
    count
}

// Whether sets of this size may add a command of a value, from a place of its sequence on.
fn may_add<V: Values>(
    known: &History,
    values: &V,
    value: &History,
    from: usize,
    n: u32,
    size: u32,
) -> bool
    requires { n ≤ 7 }
    ensures nothing { result ≡ false → NoneFrom (may_add (history_of known.now) (V.value values.now) (V.within values.now) n size) value.now from }
    ensures histories { AreHistories (V.value values.now) n }
    ensures distinct { IsTrue (no_repeat value.now) }
{
    let end = value.len();
    if count_there(values, n) < size {
        return false;
    }
    for i in from..end {
        let c = value.at(i);
        if !has_near(known, c, i) && size <= count_open(values, n, c, known, i) {
            return true;
        }
    }
    false
}

// Whether some command of a value, from a place of its sequence on, is not known, and is in each
// value of the members of one set that count.
fn has_new_from<V: Values>(
    known: &History,
    values: &V,
    value: &History,
    from: usize,
    n: u32,
    mask: u8,
) -> bool
    requires { n ≤ 7 }
    ensures nothing { result ≡ false → NoneFrom (is_new (history_of known.now) (V.value values.now) (λ i. bit mask i && V.within values.now i) n) value.now from }
    ensures some { result ≡ true → list_any (is_new (history_of known.now) (V.value values.now) (λ i. bit mask i && V.within values.now i) n) value.now ≡ true }
{
    for i in from..value.len() {
        let c = value.at(i);
        if !has_near(known, c, i) && all_have(values, n, mask, c, i) {
            return true;
        }
    }
    false
}

// Whether the meet of the values of one set may add a command.
fn has_news<V: Values>(
    known: &History,
    values: &V,
    sender: u32,
    value: &History,
    from: usize,
    n: u32,
    mask: u8,
) -> bool
    requires few { n ≤ 7 }
    requires sender { sender < n }
    requires old { IsFromOld (V.value values.now sender) value.now from }
    requires histories { AreHistories (V.value values.now) n }
    requires earlier { IsMetKnown (history_of known.now) (V.value values.now) (V.within values.now) n mask }
    ensures nothing { result ≡ false → known_with_one (history_of known.now) (value_held (V.value values.now) sender (history_of value.now)) (V.within values.now) n mask ≡ history_of known.now }
    ensures addition { result ≡ true → Addition (history_of known.now) (value_held (V.value values.now) sender (history_of value.now)) (λ i. bit mask i && V.within values.now i) n }
{
    if !is_member(mask, sender) || !values.is_within(sender) {
        return false;
    }
    let held = Replaced {
        values,
        sender,
        value: Some(value),
    };
    if !has_new_from(known, &held, value, from, n, mask) {
        return false;
    }
    is_whole(&held, n, mask)
}

// The meet of the values of one set, unless it adds nothing.
fn new_meet<V: Values>(
    alloc: Global,
    known: &History,
    values: &V,
    sender: u32,
    value: &History,
    from: usize,
    n: u32,
    mask: u8,
) -> Result<Option<History>, NoMemory>
    requires few { n ≤ 7 }
    requires sender { sender < n }
    requires old { IsFromOld (V.value values.now sender) value.now from }
    requires histories { AreHistories (V.value values.now) n }
    requires earlier { IsMetKnown (history_of known.now) (V.value values.now) (V.within values.now) n mask }
    ensures joined { IfOk result (λ m. joined (history_of known.now) (add_meet (option_map history_of m) [])
        ≡ known_with_one (history_of known.now) (value_held (V.value values.now) sender (history_of value.now)) (V.within values.now) n mask) }
    ensures addition { IfOk result (λ m. OnSome m (Addition (history_of known.now) (value_held (V.value values.now) sender (history_of value.now)) (λ i. bit mask i && V.within values.now i) n)) }
{
    if !has_news(known, values, sender, value, from, n, mask) {
        return Ok(None);
    }
    let held = Replaced {
        values,
        sender,
        value: Some(value),
    };
    quorum_meet(alloc, &held, n, mask)
}
