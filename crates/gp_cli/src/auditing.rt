//! The subcommand that audits what a run printed.
ghost use Rattle.std.specs.Prelude.{◌≤◌};
ghost use Rattle.gp_verdict.specs.Verdicts.{verdict};
ghost use Rattle.gp_cli.specs.Outside.{device};
ghost use Rattle.gp_cli.specs.Audits.{IsVerdictCause, IsAuditCause};
ghost use Rattle.gp_cli.specs.Serving.{EndsBy};

use crate::runs::{MOST_READ, Outcome, print, without_run};
use crate::status::{NO_MEMORY, REFUSED, UNREAD};
use crate::telling::{READ_FAULT, refusal_text, tell, tell_of};
use gp_edge::{Refused, Sink, Source, read_up_to};
use gp_text::Played;
use gp_verdict::{Audited, Unaudited, audit};
use std::alloc::Global;

// Audits an input, and prints the certificates of its run, or its first refused line.
fn audit_input<K: Sink>(alloc: Global, input: &[u8], sink: &mut K) -> Outcome
    ensures ends { EndsBy (IsVerdictCause (verdict input.now))
        (device (K.written sink.old) (K.faults sink.old)) (device (K.written sink.new) (K.faults sink.new)) result.status result.trail }
    ensures never_falls { K.faults sink.old ≤ K.faults sink.new }
{
    match audit(alloc, input) {
        Ok(Audited { world, text }) => print(alloc, Ok(Played { world, text }), sink),
        Err(
            Unaudited::Bad {
                line,
                reason,
                records,
            },
        ) => Outcome {
            status: tell_of(sink, refusal_text(alloc, line, reason), REFUSED, REFUSED),
            trail: records,
        },
        Err(Unaudited::NoMemory) => without_run(alloc, NO_MEMORY),
    }
}

/// Reads what a run printed, and audits it.
pub(crate) fn read_and_audit<S: Source, K: Sink>(
    alloc: Global,
    source: &mut S,
    sink: &mut K,
) -> Outcome
    ensures ends { EndsBy (IsAuditCause (device (S.rest source.old) (S.faults source.old)) (device (S.rest source.new) (S.faults source.new)))
        (device (K.written sink.old) (K.faults sink.old)) (device (K.written sink.new) (K.faults sink.new)) result.status result.trail }
    ensures source_never_falls { S.faults source.old ≤ S.faults source.new }
    ensures sink_never_falls { K.faults sink.old ≤ K.faults sink.new }
{
    match read_up_to(alloc, source, MOST_READ) {
        Ok(input) => audit_input(alloc, &input, sink),
        Err(Refused::Failed) => {
            let status = tell(sink, READ_FAULT, UNREAD, UNREAD);
            without_run(alloc, status)
        }
        Err(Refused::NoMemory) => without_run(alloc, NO_MEMORY),
    }
}
