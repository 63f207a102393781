//! The audit.
ghost use Rattle.std.specs.Prelude.{◌≡◌, IfOk};
ghost use Rattle.gp_world.specs.State.{entries_of};
ghost use Rattle.gp_report.specs.Replicas.{IsInAgreement};
ghost use Rattle.gp_verdict.specs.Verdicts.{verdict, RulesLegally};
ghost use Rattle.gp_verdict.specs.Answers.{Audits};

use crate::answer::{Audited, Unaudited};
use crate::certificates::certificates;
use crate::judging::judge;
use std::alloc::Global;

/// Audits what a run printed: the lines of a trace, a line `--`, and the lines of a report.
///
/// The trace is read as a script of the key store without `show` lines. If it is a legal run and
/// the report is that of this run, the text is the word `legal` and then, for each learner and each
/// of its commands in canonical order, a line with the certificate of the command. Otherwise the
/// first line that breaks a rule is refused. On every line `Reason::TooLong` comes before any other
/// reason. The other reasons of a line of the trace are those of a script, in their order.
pub fn audit(alloc: Global, bytes: &[u8]) -> Result<Audited, Unaudited>
    ensures audits { Audits (verdict bytes.now) result }
    ensures agreement { IfOk result (λ audited. IsInAgreement audited.world.config (entries_of audited.world)) }

    // The events of the trace, all of them or those before the first refused line, are a legal run
    // of its configuration and in agreement.
    ensures legal { RulesLegally (verdict bytes.now) }
{
    let world = judge(alloc, bytes)?;
    let text = certificates(alloc, &world)?;
    Ok(Audited { world, text })
}
