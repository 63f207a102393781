//! The trait of disks.
ghost use Rattle.std.specs.Prelude.{ℕ, ◌≡◌, ◌≤◌, List, length, take, Option, Some, IfOk, OnOk};
ghost use Rattle.gp_edge.specs.Disks.{IfRevealed, RevealsAlike, IfBothRevealed, put, ReadsAt, Torn, Shortened, Follows, NoMore, Only, Elapses, Counts};

use crate::refusal::Refused;

/// A disk: a list of bytes, which a crash may change until they are synced.
///
/// After a crash, each range that was written since the last sync, and what is past the old end,
/// may hold any bytes. A cut since then may have been made in part. Other bytes are unchanged. The
/// same holds after a write or a cut that was refused. Each call that fails raises the number of
/// faults, unless it is 2^64 - 1, and no other call changes it.
pub trait Disk: Drop {
    /// What reads return, if the disk reveals it.
    ghost content: { Self → Option (List ℕ) };

    /// What a crash now may leave.
    ghost image: { Self → List ℕ → Type 0 };

    /// The present moment, as a number that never decreases.
    ghost moment: { Self → ℕ };

    /// What a crash at the given moment or later might have left.
    ghost since: { Self → ℕ → List ℕ → Type 0 };

    /// The number of faults, which never decreases. At 2^64 - 1 it need not increase any more.
    ghost faults: { Self → ℕ };

    /// The number of bytes.
    fn len(&mut self) -> Result<u64, Refused>
        ensures len { IfOk result (λ n. IfRevealed (content self.old) (λ s. n ≡ length s)) }
        ensures content { content self.new ≡ content self.old }
        ensures crash { NoMore (image self.old) (image self.new) }
        ensures time { Elapses (moment self.old) (moment self.new) (since self.old) (since self.new) (image self.new) }
        ensures count { Counts (faults self.old) (faults self.new) result };

    /// Moves the bytes from the place `at` on to the front of the piece, and returns how many. They
    /// are fewer than the piece has room for only if no more bytes follow.
    fn read_at(&mut self, at: u64, into: &mut [u8]) -> Result<usize, Refused>
        ensures within { IfOk result (λ n. n ≤ length into.old) }
        ensures bytes { IfOk result (λ n. IfRevealed (content self.old) (λ s. ReadsAt s at n into.old into.new)) }
        ensures content { content self.new ≡ content self.old }
        ensures crash { NoMore (image self.old) (image self.new) }
        ensures time { Elapses (moment self.old) (moment self.new) (since self.old) (since self.new) (image self.new) }
        ensures count { Counts (faults self.old) (faults self.new) result };

    /// Writes the bytes from the place `at` on. If the disk ends before that place, the bytes
    /// between become zero.
    fn write_at(&mut self, at: u64, from: &[u8]) -> Result<(), Refused>
        ensures written { OnOk result (IfBothRevealed (λ s t. t ≡ put at from.now s) (content self.old) (content self.new)) }
        ensures reveals { RevealsAlike (content self.old) (content self.new) }
        ensures crash { Follows (Torn at (length from.now)) (image self.old) (image self.new) }
        ensures time { Elapses (moment self.old) (moment self.new) (since self.old) (since self.new) (image self.new) }
        ensures count { Counts (faults self.old) (faults self.new) result };

    /// Keeps the first `len` bytes, or all of them if there are no more.
    fn cut(&mut self, len: u64) -> Result<(), Refused>
        ensures cut { OnOk result (IfBothRevealed (λ s t. t ≡ take len s) (content self.old) (content self.new)) }
        ensures reveals { RevealsAlike (content self.old) (content self.new) }
        ensures crash { Follows (Shortened len) (image self.old) (image self.new) }
        ensures time { Elapses (moment self.old) (moment self.new) (since self.old) (since self.new) (image self.new) }
        ensures count { Counts (faults self.old) (faults self.new) result };

    /// Makes what was written durable: after `Ok` a crash leaves what reads return.
    fn sync(&mut self) -> Result<(), Refused>
        ensures durable { OnOk result (IfRevealed (content self.old) (λ s. Only s (image self.new))) }
        ensures content { content self.new ≡ content self.old }
        ensures crash { NoMore (image self.old) (image self.new) }
        ensures time { Elapses (moment self.old) (moment self.new) (since self.old) (since self.new) (image self.new) }
        ensures count { Counts (faults self.old) (faults self.new) result };

    /// What a crash may leave now is among what it might have left since an earlier moment.
    ghost counts_now: { (d : Self) (t : ℕ) (c : List ℕ) → t ≤ moment d → image d c → since d t c };

    /// A crash may leave now what a crash since the present moment might have left.
    ghost only_now: { (d : Self) (c : List ℕ) → since d (moment d) c → image d c };

    /// A crash may leave what reads return.
    ghost shows: { (d : Self) (s : List ℕ) → content d ≡ Some s → image d s };
}
