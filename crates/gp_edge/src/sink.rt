//! The trait of sinks.
ghost use Rattle.std.specs.Prelude.{ℕ, ◌≡◌, ◌≤◌, List, length, Option, IfOk};
ghost use Rattle.gp_edge.specs.Faults.{Rose, HasFailed, TakesNothing};
ghost use Rattle.gp_edge.specs.Writes.{AppendsFirst};

use crate::refusal::Refused;

/// A sink of bytes. What is written is appended to what was written before.
pub trait Sink {
    /// The bytes that were written, if the sink reveals them.
    ghost written: { Self → Option (List ℕ) };

    /// The number of faults, which never decreases. At 2^64 - 1 it need not increase any more.
    ghost faults: { Self → ℕ };

    /// Appends the first bytes of the piece, and returns how many.
    ///
    /// If it fails, or takes nothing of a piece that is not empty, the number of faults increases,
    /// unless it is 2^64 - 1. After every other call the number is unchanged. After an error
    /// nothing was appended.
    fn write(&mut self, from: &[u8]) -> Result<usize, Refused>
        ensures within { IfOk result (λ n. n ≤ length from.now) }
        ensures next { AppendsFirst (written self.old) (written self.new) from.now result }
        ensures never_falls { faults self.old ≤ faults self.new }
        ensures failed { HasFailed result → Rose (faults self.old) (faults self.new) }
        ensures stalled { TakesNothing from.now result → Rose (faults self.old) (faults self.new) }
        ensures steady { ¬ HasFailed result → ¬ TakesNothing from.now result → faults self.new ≡ faults self.old };
}
