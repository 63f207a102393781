//! The text that `run` and `adapt` print for the records that their nodes posted.
ghost use Rattle.std.specs.Prelude.{◌≡◌, IfOk};
ghost use Rattle.gp_run.specs.Legal.{Legal};
ghost use Rattle.gp_run.specs.Runs.{newest_first};
ghost use Rattle.gp_retelling.specs.Texts.{run_text};

use crate::worlds::world_of;
use gp_command::NoMemory;
use gp_msg::Record;
use gp_report::report;
use gp_round::Config;
use gp_text::trace;
use std::alloc::Global;

/// The trace of the records, a line `--`, and the report of their run. The records are a legal run
/// of the configuration. Returns `NoMemory` if memory runs out, and also if there are more than
/// 2^31 records.
pub fn run_text(alloc: Global, config: &Config, records: &[Record]) -> Result<Vec<u8>, NoMemory>
    requires { Legal config.now (newest_first records.now) }
    ensures { IfOk result (λ text. text.items ≡ run_text config.now records.now) }
{
    let mut text = Vec::new(alloc);
    trace(alloc, config, records, &mut text)?;
    text.extend_from_slice(b"--\n")?;
    let world = world_of(alloc, *config, records)?;
    report(alloc, &world, &mut text)?;
    Ok(text)
}
