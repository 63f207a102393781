//! Judging an input.
ghost use Rattle.std.specs.Prelude.{◌≡◌, ◌≤◌, ◌<◌, ◌+◌, ◌^◌, ℕ, List, length};
ghost use Rattle.gp_msg.specs.declared.event.Event.{Event};
ghost use Rattle.gp_run.specs.Runs.{run_of};
ghost use Rattle.gp_words.specs.Lines.{lines_of};
ghost use Rattle.gp_world.specs.State.{entries_of};
ghost use Rattle.gp_report.specs.Texts.{report};
ghost use Rattle.gp_verdict.specs.declared.answer.Unaudited.TheVariants as unaudited;
ghost use Rattle.gp_verdict.specs.Verdicts.{Verdict, ending_verdict, lines_verdict, too_long_after, verdict};
ghost use Rattle.gp_verdict.specs.Answers.{Judges};

use crate::answer::Unaudited;
use crate::parts::{is_divider, short_head, trace_head};
use crate::reports::first_difference;
use gp_script::Reason;
use gp_text::{MOST_BYTES, Played, play};
use gp_words::{first_line, text_of};
use gp_world::World;
use std::alloc::Global;

// The line with this number is refused after the events of this world.
fn refused(world: World, line: u64, reason: Reason) -> Unaudited
    ensures { result ≡ unaudited.Bad line reason world.records }
{
    Unaudited::Bad {
        line,
        reason,
        records: world.into_records(),
    }
}

// Judges the lines after a trace that was played: the line `--` and the lines of the report. The
// first of them has this number.
fn judge_ending(number: u64, rest: &[u8], played: Played) -> Result<World, Unaudited>
    requires few { number + length rest.now < 2 ^ 63 }
    requires text { played.text.items ≡ report played.world.config (entries_of played.world) }
    ensures { (events : List Event) → entries_of played.world ≡ run_of played.world.config events
        → Judges (ending_verdict played.world.config events number (lines_of rest.now)) result }
{
    let Played { world, text } = played;
    if rest.is_empty() {
        return Err(refused(world, number, Reason::NoReport));
    }
    let (line, after) = first_line(rest);
    if !is_divider(text_of(line)) {
        return Err(refused(world, number, Reason::BadLine));
    }
    match first_difference(number + 1, after, &text) {
        None => Ok(world),
        Some(line) => Err(refused(world, line, Reason::WrongReport)),
    }
}

// Judges lines none of which is too long.
fn judge_lines(alloc: Global, bytes: &[u8]) -> Result<World, Unaudited>
    requires { length bytes.now ≤ MOST_BYTES }
    ensures { Judges (lines_verdict (lines_of bytes.now)) result }
{
    let trace = trace_head(bytes);
    let played = play(alloc, trace.bytes)?;
    judge_ending(trace.lines + 1, trace.rest, played)
}

// The refusal of an input whose first `lines` lines have this judgement, and whose next line is too
// long.
fn too_long_after(lines: u64, judged: Result<World, Unaudited>) -> Unaudited
    requires { lines < 2 ^ 63 }
    ensures { (ruling : Verdict) → Judges ruling judged → Judges (too_long_after lines ruling) (Err result) }
{
    let too_long = Reason::TooLong;
    match judged {
        Ok(world) => refused(world, lines + 1, too_long),
        Err(Unaudited::NoMemory) => Unaudited::NoMemory,
        Err(
            Unaudited::Bad {
                line,
                reason,
                records,
            },
        ) => {
            if line <= lines {
                Unaudited::Bad {
                    line,
                    reason,
                    records,
                }
            } else {
                Unaudited::Bad {
                    line: lines + 1,
                    reason: too_long,
                    records,
                }
            }
        }
    }
}

/// The world of the run whose trace and report the input is, or why the input is refused.
pub fn judge(alloc: Global, bytes: &[u8]) -> Result<World, Unaudited>
    ensures { Judges (verdict bytes.now) result }
{
    if bytes.len() <= MOST_BYTES {
        return judge_lines(alloc, bytes);
    }
    let short = short_head(bytes);
    Err(too_long_after(short.lines, judge_lines(alloc, short.bytes)))
}
