//! Compatibility of histories.
ghost use Rattle.std.specs.Prelude.{◌≡◌, ◌↔◌, ◌≤◌, ◌<◌, take, length, IsTrue, Some};
ghost use Rattle.std.specs.List.{list_all};
ghost use Rattle.gp_history.specs.Sequence.{history_of, place_in};
ghost use Rattle.gp_history.specs.Bounds.{IsCompatible};
ghost use Rattle.gp_bounds.specs.Agree.{is_apart, goes_beside};

use gp_command::{Command, conflicts};
use gp_history::Hist;
use gp_history::walks::{common_start, is_behind};

/// Whether two histories are compatible: some history has both as prefixes.
pub fn compatible<H: Hist>(a: &H, b: &H) -> bool
    ensures { IsTrue result ↔ IsCompatible (history_of (H.sequence a.now)) (history_of (H.sequence b.now)) }
{
    let from = common_start(a, b);
    from == a.len() || all_beside(a, b, from)
}

// Whether each command of the second history fits the first, as `goes_beside` says of one.
fn all_beside<H: Hist>(a: &H, b: &H, from: usize) -> bool
    requires alike { take from (H.sequence a.now) ≡ take from (H.sequence b.now) }
    requires within { from ≤ length (H.sequence b.now) }
    ensures { result ≡ list_all (goes_beside (H.sequence a.now) (H.sequence b.now)) (H.sequence b.now) }
{
    for j in from..b.len() {
        let d = b.at(j);
        if !goes_beside(a, b, j, d, from) {
            return false;
        }
    }
    true
}

// Whether a command of the second history fits the first: if the first has it, the commands before
// it are the same in both; otherwise it conflicts with no command that only the first has.
fn goes_beside<H: Hist>(a: &H, b: &H, j: usize, d: &Command, from: usize) -> bool
    requires alike { take from (H.sequence a.now) ≡ take from (H.sequence b.now) }
    requires there { place_in (H.sequence b.now) d.now ≡ Some j }
    requires within { j < length (H.sequence b.now) }
    ensures { result ≡ goes_beside (H.sequence a.now) (H.sequence b.now) d.now }
{
    match a.place_of(d, j) {
        Some(i) => is_behind(a, i, b, j, a, d, from) && is_behind(b, j, a, i, b, d, from),
        None => all_apart(a, b, d, from),
    }
}

// Whether no command that only the first history has conflicts with this one.
fn all_apart<H: Hist>(a: &H, b: &H, d: &Command, from: usize) -> bool
    requires { take from (H.sequence a.now) ≡ take from (H.sequence b.now) }
    ensures { result ≡ list_all (is_apart (history_of (H.sequence b.now)) d.now) (H.sequence a.now) }
{
    let mut near = from;
    for i in from..a.len() {
        let c = a.at(i);
        if conflicts(c, d) {
            match b.place_of(c, near) {
                Some(place) => near = place,
                None => return false,
            }
        }
    }
    true
}
