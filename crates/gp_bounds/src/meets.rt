//! Meets of histories.
ghost use Rattle.std.specs.Prelude.{◌≡◌, ◌&&◌, ◌<◌, ◌≤◌, ◌^◌, take, length, map, IfOk, IsTrue, Some};
ghost use Rattle.std.specs.Option.{option_map};
ghost use Rattle.std.specs.List.{list_all};
ghost use Rattle.gp_history.specs.History.{has};
ghost use Rattle.gp_history.specs.Sequence.{history_of, place_in};
ghost use Rattle.gp_history.specs.Bounds.{meet, meet_all};
ghost use Rattle.gp_bounds.specs.Agree.{agrees, and_meet};
ghost use Rattle.gp_bounds.specs.Marks.{AreCounted};

use crate::marks::{MarkCounts, is_behind};
use gp_command::{Command, NoMemory};
use gp_history::Hist;
use gp_history::walks::common_start;
use std::alloc::Global;

/// The greatest history that is a prefix of both. `NoMemory` if memory runs out.
pub fn meet<H: Hist>(alloc: Global, a: &H, b: &H) -> Result<H, NoMemory>
    ensures { IfOk result (λ m. history_of (H.sequence m) ≡ meet (history_of (H.sequence a.now)) (history_of (H.sequence b.now))) }
{
    let from = common_start(a, b);
    if from == a.len() {
        let whole = a.copy()?;
        return Ok(whole);
    }
    if from == b.len() {
        let whole = b.copy()?;
        return Ok(whole);
    }
    meet_behind(alloc, a, b, from)
}

// The meet of two histories whose first `from` commands are the same. It is a function of its own
// because its tables are large.
#[inline(never)]
fn meet_behind<H: Hist>(alloc: Global, a: &H, b: &H, from: usize) -> Result<H, NoMemory>
    requires alike { take from (H.sequence a.now) ≡ take from (H.sequence b.now) }
    requires left { from ≤ length (H.sequence a.now) }
    ensures { IfOk result (λ m. history_of (H.sequence m) ≡ meet (history_of (H.sequence a.now)) (history_of (H.sequence b.now))) }
{
    let mut kept = H::empty(alloc)?;
    for k in 0..from {
        let d = a.at(k);
        kept.push(d.copy()?)?;
    }
    let a_counts = MarkCounts::of(a, from);
    let b_counts = MarkCounts::of(b, from);
    for i in from..a.len() {
        let c = a.at(i);
        if stays(&a_counts, &b_counts, a, i, b, &kept, c, from) {
            kept.push(c.copy()?)?;
        }
    }
    Ok(kept)
}

// Whether a command of `a` stays in the meet: `b` has it, and all commands before it in either were
// kept and are before it in both.
fn stays<H: Hist>(
    a_counts: &MarkCounts,
    b_counts: &MarkCounts,
    a: &H,
    i: usize,
    b: &H,
    kept: &H,
    d: &Command,
    from: usize,
) -> bool
    requires a_counted { AreCounted (H.sequence a.now) from (length (H.sequence a.now)) a_counts.now.counts a_counts.now.are_all_marked }
    requires b_counted { AreCounted (H.sequence b.now) from (length (H.sequence b.now)) b_counts.now.counts b_counts.now.are_all_marked }
    requires there { place_in (H.sequence a.now) d.now ≡ Some i }
    requires within { i < length (H.sequence a.now) }
    requires alike { take from (H.sequence a.now) ≡ take from (H.sequence b.now) }
    requires kept { IsTrue (list_all (has (history_of (H.sequence kept.now))) (take from (H.sequence a.now))) }
    ensures { result ≡ (has (history_of (H.sequence b.now)) d.now && agrees (H.sequence a.now) (H.sequence b.now) (history_of (H.sequence kept.now)) d.now) }
{
    match b.place_of(d, i) {
        Some(j) => {
            is_behind(a_counts, a, i, b, j, kept, d, from)
                && is_behind(b_counts, b, j, a, i, kept, d, from)
        }
        None => false,
    }
}

/// The meet of the elements whose places are bits of the mask: bit i names place i. The mask must
/// not be 0, and must name no place after the end of the list. `NoMemory` if memory runs out.
pub fn meet_all<H: Hist>(alloc: Global, list: &[H], mask: u8) -> Result<H, NoMemory>
    requires some { 0 < mask }
    requires within { mask < 2 ^ length list.now }
    ensures { IfOk result (λ m. meet_all mask (map (λ h. history_of (H.sequence h)) list.now) ≡ Some (history_of (H.sequence m))) }
{
    let mut so_far = None;
    let mut rest = mask;
    for h in list {
        if rest % 2 == 1 {
            so_far = Some(and_meet(alloc, so_far, h)?);
        }
        rest /= 2;
    }
    match so_far {
        Some(m) => Ok(m),
        None => H::empty(alloc),
    }
}

// The meet with one more history, or that history alone.
fn and_meet<H: Hist>(alloc: Global, so_far: Option<H>, h: &H) -> Result<H, NoMemory>
    ensures { IfOk result (λ m. history_of (H.sequence m) ≡ and_meet (option_map (λ x. history_of (H.sequence x)) so_far) (history_of (H.sequence h.now))) }
{
    match so_far {
        Some(m) => meet(alloc, &m, h),
        None => {
            let first = h.copy()?;
            Ok(first)
        }
    }
}
