//! Walks over the sequences of histories.
//!
//! Two histories usually have a long common start, and the commands after it in a similar order. So
//! a walk leaves the common start out, tests first whether two commands conflict, and looks for a
//! command from the place where the last one was found.
ghost use Rattle.std.specs.Prelude.{◌≡◌, ◌≢◌, ◌↔◌, ◌≤◌, ◌<◌, take, length, slice_get, IsTrue, Some};
ghost use Rattle.std.specs.List.{list_all};
ghost use Rattle.std.specs.Option.{option_copied};
ghost use Rattle.gp_command.specs.declared.command.Command.{Command};
ghost use Rattle.gp_history.specs.History.{has, IsPrefix};
ghost use Rattle.gp_history.specs.Sequence.{history_of, place_in};
ghost use Rattle.gp_history.specs.Canonical.{is_ready, next_least};
ghost use Rattle.gp_history.specs.Walks.{behind, fits, is_less};

use crate::hist::Hist;
use gp_command::{Command, conflicts};

/// The number of commands at the start of both sequences that are the same, up to the first place
/// where they differ.
pub fn common_start<H: Hist>(a: &H, b: &H) -> usize
    ensures alike { take result (H.sequence a.now) ≡ take result (H.sequence b.now) }
    ensures left { result ≤ length (H.sequence a.now) }
    ensures right { result ≤ length (H.sequence b.now) }
    ensures longest { (c : Command) → slice_get (H.sequence a.now) result ≡ Some c → slice_get (H.sequence b.now) result ≢ Some c }
{
    let shorter = a.len().min(b.len());
    for i in 0..shorter {
        let c = a.at(i);
        let d = b.at(i);
        if c != d {
            return i;
        }
    }
    shorter
}

/// Whether all commands before `d` in `a` were kept, and are before it in `b`. The first `from`
/// commands of both are the same, and were kept. `d` is at place `i` of `a` and at place `j` of
/// `b`.
pub fn is_behind<H: Hist>(
    a: &H,
    i: usize,
    b: &H,
    j: usize,
    kept: &H,
    d: &Command,
    from: usize,
) -> bool
    requires left { place_in (H.sequence a.now) d.now ≡ Some i }
    requires right { place_in (H.sequence b.now) d.now ≡ Some j }
    requires within { i < length (H.sequence a.now) }
    requires alike { take from (H.sequence a.now) ≡ take from (H.sequence b.now) }
    requires kept { IsTrue (list_all (has (history_of (H.sequence kept.now))) (take from (H.sequence a.now))) }
    ensures { result ≡ list_all (behind (history_of (H.sequence a.now)) (history_of (H.sequence b.now)) (history_of (H.sequence kept.now)) d.now) (H.sequence a.now) }
{
    let mut near_kept = from;
    let mut near = from;
    for p in from..i {
        let c = a.at(p);
        if conflicts(c, d) {
            match kept.place_of(c, near_kept) {
                Some(place) => near_kept = place,
                None => return false,
            }
            match b.place_of(c, near) {
                Some(place) if place < j => near = place,
                _ => return false,
            }
        }
    }
    true
}

// Whether each command of `a` is in `b`, and all commands before it there are before it in `a` too.
fn all_fit<H: Hist>(a: &H, b: &H, from: usize) -> bool
    requires { take from (H.sequence a.now) ≡ take from (H.sequence b.now) }
    ensures { result ≡ list_all (fits (H.sequence a.now) (H.sequence b.now)) (H.sequence a.now) }
{
    let mut near = from;
    for i in from..a.len() {
        let d = a.at(i);
        match b.place_of(d, near) {
            Some(j) => {
                if !is_behind(b, j, a, i, b, d, from) {
                    return false;
                }
                near = j;
            }
            None => return false,
        }
    }
    true
}

/// Whether the first history is a prefix of the second.
#[tactic(auto, using(crate::proofs::PrefixTest::fits_is_prefix))]
pub(crate) fn is_prefix<H: Hist>(a: &H, b: &H) -> bool
    ensures { IsTrue result ↔ IsPrefix (history_of (H.sequence a.now)) (history_of (H.sequence b.now)) }
{
    all_fit(a, b, common_start(a, b))
}

/// Whether the two histories are equal.
pub(crate) fn is_same<H: Hist>(a: &H, b: &H) -> bool
    ensures { IsTrue result ↔ (history_of (H.sequence a.now) ≡ history_of (H.sequence b.now)) }
{
    a.len() == b.len() && is_prefix(a, b)
}

// Whether a command was not taken while all commands before it were.
fn is_ready<H: Hist>(h: &H, i: usize, taken: &H, c: &Command, from: usize) -> bool
    requires there { place_in (H.sequence h.now) c.now ≡ Some i }
    requires within { i < length (H.sequence h.now) }
    requires taken { IsTrue (list_all (has (history_of (H.sequence taken.now))) (take from (H.sequence h.now))) }
    ensures { result ≡ is_ready (history_of (H.sequence h.now)) (history_of (H.sequence taken.now)) c.now }
{
    !taken.has(c) && is_behind(h, i, h, i, taken, c, from)
}

// Whether a command is less than the best so far.
fn is_less(c: &Command, best: Option<&Command>) -> bool
    ensures { result ≡ is_less c.now (option_copied best.entry) }
{
    match best {
        Some(b) => c < b,
        None => true,
    }
}

/// The least command that is ready: it was not taken, and all commands before it were.
pub(crate) fn next_least<'a, H: Hist>(h: &'a H, taken: &H) -> Option<&'a Command>
    ensures { option_copied result ≡ next_least (history_of (H.sequence h.now)) (history_of (H.sequence taken.now)) }
{
    let from = common_start(h, taken);
    let mut best = None;
    for i in from..h.len() {
        let c = h.at(i);
        if is_less(c, best) && is_ready(h, i, taken, c, from) {
            best = Some(c);
        }
    }
    best
}
