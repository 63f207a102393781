//! Joins of histories.
ghost use Rattle.std.specs.Prelude.{◌≡◌, IfOk, map};
ghost use Rattle.gp_history.specs.Sequence.{history_of};
ghost use Rattle.gp_history.specs.Bounds.{join, join_all};

use gp_command::NoMemory;
use gp_history::Hist;
use gp_history::walks::common_start;
use std::alloc::Global;

/// The first history, and then the commands that only the second has, in the canonical order of the
/// second. `NoMemory` if memory runs out.
///
/// It is defined for every pair. If the two are compatible, it is their least upper bound (law
/// `the_join_is_the_least_upper_bound`).
pub fn join<H: Hist>(_alloc: Global, a: &H, b: &H) -> Result<H, NoMemory>
    ensures { IfOk result (λ j. history_of (H.sequence j) ≡ join (history_of (H.sequence a.now)) (history_of (H.sequence b.now))) }
{
    join_onto(a.copy()?, b)
}

/// The join of both histories. If memory runs out, the error is `NoMemory`, and the first history
/// is dropped.
pub fn join_onto<H: Hist>(mut a: H, b: &H) -> Result<H, NoMemory>
    ensures { IfOk result (λ j. history_of (H.sequence j) ≡ join (history_of (H.sequence a)) (history_of (H.sequence b.now))) }
{
    for i in common_start(&a, b)..b.len() {
        let c = b.at(i);
        if a.place_of(c, i).is_none() {
            a.push(c.copy()?)?;
        }
    }
    Ok(a)
}

/// The join of all elements, starting with the empty history. `NoMemory` if memory runs out.
///
/// If every two of them are compatible, it is the least upper bound of all, in whatever order the
/// list has them (law `many_that_are_compatible_in_pairs_have_a_least_upper_bound`).
pub fn join_all<H: Hist>(alloc: Global, list: &[H]) -> Result<H, NoMemory>
    ensures { IfOk result (λ j. history_of (H.sequence j) ≡ join_all (map (λ h. history_of (H.sequence h)) list.now)) }
{
    let mut all = H::empty(alloc)?;
    for h in list {
        all = join_onto(all, h)?;
    }
    Ok(all)
}
