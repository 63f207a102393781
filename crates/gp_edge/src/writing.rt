//! Writing a whole text to a sink.
ghost use Rattle.std.specs.Prelude.{◌≡◌, ℕ, ◌≤◌, [], IsOk, OnOk, OnErr};
ghost use Rattle.gp_edge.specs.Faults.{Rose, HasFailed};
ghost use Rattle.gp_edge.specs.Writes.{AppendsWhole, AppendsPart};

use crate::refusal::Refused;
use crate::sink::Sink;

/// Writes the whole text. If it is empty, the sink is unchanged.
///
/// Returns `Failed` if a write fails or takes nothing, and `NoMemory` if the sink returns that.
/// After either the first bytes of the text may have been written, but not all of them.
pub fn write_whole<K: Sink>(sink: &mut K, text: &[u8]) -> Result<(), Refused>
    ensures whole { OnOk result (AppendsWhole (K.written sink.old) (K.written sink.new) text.now) }
    ensures refused { OnErr result (AppendsPart (K.written sink.old) (K.written sink.new) text.now) }
    ensures never_falls { K.faults sink.old ≤ K.faults sink.new }
    ensures failed { HasFailed result → Rose (K.faults sink.old) (K.faults sink.new) }
    ensures steady { ¬ HasFailed result → K.faults sink.new ≡ K.faults sink.old }
    ensures empty { text.now ≡ [] → IsOk result × (sink.new ≡ sink.old) }
{
    let mut done = 0;
    while done < text.len() {
        let count = sink.write(&text[done..])?;
        if count == 0 {
            return Err(Refused::Failed);
        }
        done += count;
    }
    Ok(())
}
