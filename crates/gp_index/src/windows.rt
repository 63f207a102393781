//! The prefix test for parts of the sequences of histories.
ghost use Rattle.std.specs.Prelude.{◌≡◌, ◌↔◌, ◌<◌, length, IsTrue, Some};
ghost use Rattle.std.specs.List.{list_all};
ghost use Rattle.gp_history.specs.History.{IsPrefix};
ghost use Rattle.gp_history.specs.Sequence.{history_of, no_repeat, place_in};
ghost use Rattle.gp_history.specs.Walks.{behind, fits};

use gp_command::{Command, conflicts};
use gp_history::place_of;

/// Whether the history of the first is a prefix of the history of the second.
#[tactic(auto, using(gp_history::proofs::PrefixTest::fits_is_prefix))]
pub fn is_prefix(a: &[Command], b: &[Command]) -> bool
    requires first { IsTrue (no_repeat a.now) }
    requires second { IsTrue (no_repeat b.now) }
    ensures { IsTrue result ↔ IsPrefix (history_of a.now) (history_of b.now) }
{
    all_fit(a, b)
}

/// Whether both are linear orders of one history.
pub fn is_same(a: &[Command], b: &[Command]) -> bool
    requires first { IsTrue (no_repeat a.now) }
    requires second { IsTrue (no_repeat b.now) }
    ensures { IsTrue result ↔ (history_of a.now ≡ history_of b.now) }
{
    a.len() == b.len() && is_prefix(a, b)
}

// Whether each command of `a` is in `b`, and all commands before it there are before it in `a` too.
fn all_fit(a: &[Command], b: &[Command]) -> bool
    requires first { IsTrue (no_repeat a.now) }
    requires second { IsTrue (no_repeat b.now) }
    ensures { result ≡ list_all (fits a.now b.now) a.now }
{
    for i in 0..a.len() {
        let d = &a[i];
        match place_of(d, b, i) {
            Some(j) => {
                if !is_behind(b, j, a, i, d) {
                    return false;
                }
            }
            None => return false,
        }
    }
    true
}

// Whether all commands before `d` in `a` are before it in `b`. `d` is at place `i` of `a` and at
// place `j` of `b`.
fn is_behind(a: &[Command], i: usize, b: &[Command], j: usize, d: &Command) -> bool
    requires second { IsTrue (no_repeat b.now) }
    requires left { place_in a.now d.now ≡ Some i }
    requires right { place_in b.now d.now ≡ Some j }
    requires within { i < length a.now }
    ensures { result ≡ list_all (behind (history_of a.now) (history_of b.now) (history_of a.now) d.now) a.now }
{
    for p in 0..i {
        let c = &a[p];
        if conflicts(c, d) {
            match place_of(c, b, p) {
                Some(place) if place < j => {}
                _ => return false,
            }
        }
    }
    true
}
