//! Which commands of a history have a footprint mark that no other command has.
ghost use Rattle.std.specs.Prelude.{◌≡◌, ◌≢◌, ◌<◌, take, length, true, IsTrue, Some};
ghost use Rattle.std.specs.List.{list_all};
ghost use Rattle.gp_history.specs.History.{has};
ghost use Rattle.gp_history.specs.Sequence.{history_of, place_in};
ghost use Rattle.gp_history.specs.Walks.{behind};
ghost use Rattle.gp_bounds.specs.Marks.{entry, IsMarked, IsAlone, AreCounted};

use gp_command::Command;
use gp_history::{Hist, walks};

// The number of entries in which marks are counted.
const ENTRIES: usize = 4_096;

/// How many commands of a history, from a place on, have their mark in each entry: 0, 1, or 2 if
/// there are two or more.
#[derive(Drop)]
pub struct MarkCounts {
    pub counts: [u8; ENTRIES],
    pub are_all_marked: bool,
}

impl MarkCounts {
    /// The counts of a history from a place on.
    #[tactic(auto, using(crate::proofs::Counting::none_counted))]
    pub fn of<H: Hist>(h: &H, from: usize) -> MarkCounts
        ensures { AreCounted (H.sequence h.now) from (length (H.sequence h.now)) result.counts result.are_all_marked }
    {
        let mut counts = [0; ENTRIES];
        let mut are_all_marked = true;
        for i in from..h.len() {
            let c = h.at(i);
            let entry = entry_of(c);
            counts[entry] = one_more(counts[entry]);
            are_all_marked &= is_marked(c);
        }
        MarkCounts {
            counts,
            are_all_marked,
        }
    }

    // Whether the counts show that a command conflicts with no other command that was counted.
    fn is_alone(&self, d: &Command) -> bool
        ensures { result ≡ true → IsAlone d.now self.now.counts self.now.are_all_marked }
    {
        self.are_all_marked && is_marked(d) && self.counts[entry_of(d)] != 2
    }
}

// The count after one more: once it is 2, it stays 2.
fn one_more(count: u8) -> u8
    ensures some { result ≢ 0 }
    ensures again { count ≢ 0 → result ≡ 2 }
{
    if count == 0 { 1 } else { 2 }
}

// Whether a command has a mark.
fn is_marked(c: &Command) -> bool
    ensures { result ≡ true → IsMarked c.now }
{
    if c.draft().mark() == 0 {
        return false;
    }
    true
}

// The entry in which a command is counted.
fn entry_of(c: &Command) -> usize
    ensures value { result ≡ entry c.now }
    ensures within { result < 4096 }
{
    (c.draft().mark() % 4_096) as usize
}

/// Whether all commands before `d` in `a` were kept, and are before it in `b`. The first `from`
/// commands of both are the same, and were kept. `d` is at place `i` of `a` and at place `j` of
/// `b`. The counts are those of `a` from place `from` on.
pub fn is_behind<H: Hist>(
    counts: &MarkCounts,
    a: &H,
    i: usize,
    b: &H,
    j: usize,
    kept: &H,
    d: &Command,
    from: usize,
) -> bool
    requires counted { AreCounted (H.sequence a.now) from (length (H.sequence a.now)) counts.now.counts counts.now.are_all_marked }
    requires left { place_in (H.sequence a.now) d.now ≡ Some i }
    requires right { place_in (H.sequence b.now) d.now ≡ Some j }
    requires within { i < length (H.sequence a.now) }
    requires alike { take from (H.sequence a.now) ≡ take from (H.sequence b.now) }
    requires kept { IsTrue (list_all (has (history_of (H.sequence kept.now))) (take from (H.sequence a.now))) }
    ensures { result ≡ list_all (behind (history_of (H.sequence a.now)) (history_of (H.sequence b.now)) (history_of (H.sequence kept.now)) d.now) (H.sequence a.now) }
{
    counts.is_alone(d) || walks::is_behind(a, i, b, j, kept, d, from)
}
