//! The trait of sources.
ghost use Rattle.std.specs.Prelude.{ℕ, ◌≡◌, ◌≤◌, List, length, Option, IfOk, OnOk, OnErr};
ghost use Rattle.gp_edge.specs.Faults.{Rose};
ghost use Rattle.gp_edge.specs.Reads.{GivesNext};

use crate::refusal::Failed;

/// A source of bytes, which are read from its front.
pub trait Source {
    /// The remaining bytes, if the source reveals them.
    ghost rest: { Self → Option (List ℕ) };

    /// The number of faults, which never decreases. At 2^64 - 1 it need not increase any more.
    ghost faults: { Self → ℕ };

    /// Puts the next bytes at the front of the piece, and returns how many. For a piece that is not
    /// empty, 0 means the end of the input.
    ///
    /// If it fails, the number of faults increases, unless it is 2^64 - 1, and no byte is lost.
    /// Otherwise the number is unchanged.
    fn read(&mut self, into: &mut [u8]) -> Result<usize, Failed>
        ensures within { IfOk result (λ n. n ≤ length into.old) }
        ensures next { GivesNext (rest self.old) (rest self.new) (length into.old) into.new result }
        ensures never_falls { faults self.old ≤ faults self.new }
        ensures failed { OnErr result (Rose (faults self.old) (faults self.new)) }
        ensures steady { OnOk result (faults self.new ≡ faults self.old) };
}
