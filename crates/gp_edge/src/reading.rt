//! Reading a source to its end, or to a limit.
ghost use Rattle.std.specs.Prelude.{◌≡◌, ◌≤◌, length, IsOk, IfOk, OnErr};
ghost use Rattle.gp_edge.specs.Faults.{Rose, HasFailed};
ghost use Rattle.gp_edge.specs.Reads.{ReadsUpTo, LosesUpTo};

use crate::refusal::Refused;
use crate::source::Source;
use std::alloc::Global;

// The most bytes that one read asks for.
const PIECE: usize = 4096;

/// Reads the next bytes up to the end of the input, but at most `limit` of them.
///
/// Returns `Failed` if a read fails, and `NoMemory` if memory runs out. After either the bytes that
/// were read are lost. If the limit is 0, the source is unchanged.
pub fn read_up_to<S: Source>(
    alloc: Global,
    source: &mut S,
    limit: usize,
) -> Result<Vec<u8>, Refused>
    ensures within { IfOk result (λ bytes. length bytes.items ≤ limit) }
    ensures whole { IfOk result (λ bytes. ReadsUpTo limit (S.rest source.old) (S.rest source.new) bytes.items) }
    ensures refused { OnErr result (LosesUpTo limit (S.rest source.old) (S.rest source.new)) }
    ensures never_falls { S.faults source.old ≤ S.faults source.new }
    ensures failed { HasFailed result → Rose (S.faults source.old) (S.faults source.new) }
    ensures steady { ¬ HasFailed result → S.faults source.new ≡ S.faults source.old }
    ensures untouched { limit ≡ 0 → IsOk result × (source.new ≡ source.old) }
{
    let mut bytes = Vec::new(alloc);
    let mut piece = [0u8; PIECE];
    while bytes.len() < limit {
        let room = (limit - bytes.len()).min(PIECE);
        let count = source.read(&mut piece[..room])?;
        if count == 0 {
            break;
        }
        bytes.extend_from_slice(&piece[..count])?;
    }
    Ok(bytes)
}
