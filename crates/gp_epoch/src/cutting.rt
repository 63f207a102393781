//! The cut of a history at its first checkpoint.
ghost use Rattle.std.specs.Prelude.{◌≡◌, IfOk};
ghost use Rattle.std.specs.Option.{option_copied};
ghost use Rattle.gp_history.specs.Sequence.{history_of};
ghost use Rattle.gp_epoch.specs.Cut.{first_checkpoint, cut};

use gp_command::{Command, NoMemory};
use gp_history::Hist;
use std::alloc::Global;

/// The checkpoint that precedes all others of the history, or `None` if it has none.
pub fn first_checkpoint<H: Hist>(h: &H) -> Option<&Command>
    ensures { option_copied result ≡ first_checkpoint (history_of (H.sequence h.now)) }
{
    for i in 0..h.len() {
        let c = h.at(i);
        if c.draft().is_checkpoint() {
            return Some(c);
        }
    }
    None
}

/// The first checkpoint and the commands that precede it, with their order. The cut of a history
/// without a checkpoint is an equal history. `NoMemory` if memory runs out.
pub fn cut<H: Hist>(alloc: Global, h: &H) -> Result<H, NoMemory>
    ensures { IfOk result (λ c. history_of (H.sequence c) ≡ cut (history_of (H.sequence h.now))) }
{
    let mut kept = H::empty(alloc)?;
    for place in 0..h.len() {
        let c = h.at(place);
        kept.push(c.copy()?)?;
        if c.draft().is_checkpoint() {
            return Ok(kept);
        }
    }
    Ok(kept)
}
