//! The join of two histories, with a case of its own if the second begins with the first.
ghost use Rattle.std.specs.Prelude.{◌≡◌, IfOk};
ghost use Rattle.gp_history.specs.Sequence.{history_of};
ghost use Rattle.gp_history.specs.Bounds.{join};

use gp_command::NoMemory;
use gp_history::Hist;
use gp_history::walks::common_start;
use gp_index::History;
use std::alloc::Global;

/// The join of both. `NoMemory` if memory runs out.
pub fn join(alloc: Global, a: &History, b: &History) -> Result<History, NoMemory>
    ensures { IfOk result (λ j. history_of j ≡ join (history_of a.now) (history_of b.now)) }
{
    if common_start(a, b) == a.len() {
        let whole = b.copy()?;
        return Ok(whole);
    }
    gp_bounds::join(alloc, a, b)
}
