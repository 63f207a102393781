//! The calls of a disk that a log makes, in their order.
ghost use Rattle.std.specs.Prelude.{◌≡◌, ◌≤◌, ◌<◌, ◌+◌, ◌⊎◌, ◌++◌, ◌∷◌, [], ℕ, List, length, Ok, OnOk, IfOk, IfErr, true};
ghost use Rattle.gp_edge.specs.Disks.{IfRevealed, RevealsAlike, IfBothRevealed, put, Torn, Only, NoMore, Counts, LeavesOnly};
ghost use Rattle.gp_vlog.specs.Causes.{HasOpenCause, IsNoPlace};
ghost use Rattle.gp_vlog.specs.Files.{read_log, head_bytes};
ghost use Rattle.gp_vlog.specs.Found.{contents_seen};
ghost use Rattle.std.specs.List.{All};
ghost use Rattle.gp_vlog.specs.Logs.{KeepsRules};
ghost use Rattle.gp_vlog.specs.Reading.{allowed, BreaksAt};

use crate::fault::OpenFault;
use crate::file::Found;
use crate::header::header_bytes;
use gp_edge::{Disk, Refused};
use std::alloc::Global;

/// Writes and syncs. A crash leaves an image from before, or one with this write, whole or in part.
fn write_down<D: Disk>(disk: &mut D, at: u64, bytes: &[u8]) -> Result<(), Refused>
    ensures written { OnOk result (IfBothRevealed (λ s t. (t ≡ put at bytes.now s) × Only t (D.image disk.new)) (D.content disk.old) (D.content disk.new)) }
    ensures reveals { RevealsAlike (D.content disk.old) (D.content disk.new) }
    ensures moments { LeavesOnly D.moment D.since disk.old disk.new (λ c. D.image disk.old c ⊎ ((d : List ℕ) × D.image disk.old d × Torn at (length bytes.now) d c)) }
    ensures count { Counts (D.faults disk.old) (D.faults disk.new) result }
{
    disk.write_at(at, bytes)?;
    disk.sync()
}

/// Writes a piece and then one byte. The piece is synced before the byte is written.
pub(crate) fn write_and_mark<D: Disk>(
    disk: &mut D,
    at: u64,
    piece: &[u8],
    mark_at: u64,
    mark: u8,
) -> Result<(), Refused>
    requires { IfRevealed (D.content disk.old) (λ s. Only s (D.image disk.old)) }
    ensures written { OnOk result (IfBothRevealed (λ s t. (t ≡ put mark_at (mark ∷ []) (put at piece.now s)) × Only t (D.image disk.new)) (D.content disk.old) (D.content disk.new)) }
    ensures reveals { RevealsAlike (D.content disk.old) (D.content disk.new) }
    ensures any_moment { IfRevealed (D.content disk.old) (λ s. LeavesOnly D.moment D.since disk.old disk.new (λ c. Torn at (length piece.now) s c ⊎ Torn mark_at 1 (put at piece.now s) c)) }
    ensures count { Counts (D.faults disk.old) (D.faults disk.new) result }
{
    write_down(disk, at, piece)?;
    write_down(disk, mark_at, &[mark])
}

// All bytes of a disk.
fn read_whole<D: Disk>(alloc: Global, disk: &mut D) -> Result<Vec<u8>, Refused>
    ensures bytes { IfOk result (λ bytes. IfRevealed (D.content disk.old) (λ s. bytes.items ≡ s)) }
    ensures content { D.content disk.new ≡ D.content disk.old }
    ensures crash { NoMore (D.image disk.old) (D.image disk.new) }
    ensures moments { LeavesOnly D.moment D.since disk.old disk.new (D.image disk.old) }
    ensures count { Counts (D.faults disk.old) (D.faults disk.new) result }
{
    let len = disk.len()?;
    let mut bytes = Vec::new(alloc);
    bytes.resize(len as usize, 0)?;
    let count = disk.read_at(0, &mut bytes)?;
    bytes.truncate(count);
    Ok(bytes)
}

/// Syncs a disk and reads the log that it holds. The limit has to be `own`, or in range if `own` is
/// `None`.
pub(crate) fn load<D: Disk>(
    alloc: Global,
    disk: &mut D,
    own: Option<u32>,
) -> Result<Found, OpenFault>
    ensures found { IfOk result (λ f. IfRevealed (D.content disk.new) (λ s. (read_log (allowed own) s ≡ Ok (contents_seen f)) × Only s (D.image disk.new))) }
    ensures broken { IfErr result (BreaksAt (allowed own) (D.content disk.old)) }
    ensures limit { IfOk result (λ f. allowed own f.limit ≡ true) }
    ensures rules { IfOk result (λ f. All KeepsRules f.entries.items) }
    ensures some { IfOk result (λ f. f.first_version ≡ true → 0 < length f.entries.items) }
    ensures room { IfOk result (λ f. 16 < f.limit → 17 + f.closed ≤ f.limit) }
    ensures content { D.content disk.new ≡ D.content disk.old }
    ensures moments { LeavesOnly D.moment D.since disk.old disk.new (D.image disk.old) }
    ensures cause { HasOpenCause (D.faults disk.old) (D.faults disk.new) result }
{
    disk.sync()?;
    let bytes = read_whole(alloc, disk)?;
    Found::read(alloc, &bytes, own)
}

/// Cuts a disk to length 0, and begins a log of this limit on it.
pub(crate) fn begin<D: Disk>(alloc: Global, disk: &mut D, limit: u32) -> Result<(), OpenFault>
    ensures begun { OnOk result (IfRevealed (D.content disk.new) (λ s. (s ≡ head_bytes limit 0 ++ 0 ∷ []) × Only s (D.image disk.new))) }
    ensures place { IfErr result IsNoPlace }
    ensures cause { HasOpenCause (D.faults disk.old) (D.faults disk.new) result }
{
    let header = header_bytes(alloc, limit)?;
    disk.cut(0)?;
    disk.write_at(0, &header)?;
    Ok(disk.sync()?)
}
