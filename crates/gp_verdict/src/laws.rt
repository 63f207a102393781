//! Laws of the audit. Each function does nothing, and its contract is the law.
ghost use Rattle.std.specs.Prelude.{◌≡◌, ◌≤◌, ◌<◌, ◌⊎◌, ◌↔◌, ℕ, false, List, length, Option, Some, None, Result, MatchResult};
ghost use Rattle.gp_round.specs.Counts.{Counts};
ghost use Rattle.gp_msg.specs.declared.event.Event.{Event};
ghost use Rattle.gp_msg.specs.Messages.{Entry};
ghost use Rattle.gp_run.specs.Runs.{oldest_first};
ghost use Rattle.gp_words.specs.Lines.{lines_of};
ghost use Rattle.gp_service.specs.Stores.{store_language};
ghost use Rattle.gp_script.specs.declared.reason.Reason.{Reason};
ghost use Rattle.gp_script.specs.declared.reason.Reason.TheVariants as reason;
ghost use Rattle.gp_script.specs.Reasons.{is_of_report};
ghost use Rattle.gp_text.specs.Reading.{Script};
ghost use Rattle.gp_text.specs.Limits.{IsSayable};
ghost use Rattle.gp_verdict.specs.declared.answer.Audited.{Audited};
ghost use Rattle.gp_verdict.specs.declared.answer.Unaudited.{Unaudited};
ghost use Rattle.gp_verdict.specs.declared.answer.Unaudited.TheVariants.{NoMemory};
ghost use Rattle.gp_verdict.specs.Parts.{first_difference, PartAt};
ghost use Rattle.gp_verdict.specs.Verdicts.{Upheld, Rejected, verdict};
ghost use Rattle.gp_verdict.specs.Answers.{Audits};
ghost use Rattle.gp_verdict.specs.Printed.{printed, IsPrinted, LacksReport, HasWrongReport, IsAuditedRun};
ghost use Rattle.gp_verdict.specs.Rejections.{BreaksTraceAt, ShowsAt, IsRefusedBelow, IsTooLongAt};

use gp_text::MOST_BYTES;

/// An input is upheld if and only if a run prints it: it has at most 1,048,576 bytes and consists
/// of a script of the key store without `show` lines, a line `--`, and the lines of the report of
/// the script's run. The last line may lack its line feed.
pub fn the_upheld_is_what_a_run_prints()
    ensures { (bytes : List ℕ) (config : Counts) (events : List Event) → (verdict bytes ≡ Upheld config events) ↔ IsPrinted bytes config events }
{}

/// An input of at most 1,048,576 bytes has no report if and only if it is a script of the key store
/// without `show` lines; the refused line is then the one after the last. It has a wrong report if
/// and only if it is such a script, a line `--`, and lines that are not those of the report of the
/// script's run. The refused line is then the first one that differs, or the one after the last if
/// lines are missing.
pub fn a_report_is_missing_or_wrong()
    ensures missing { (bytes : List ℕ) (line : ℕ) (before : Option Script) → length bytes ≤ MOST_BYTES
        → (verdict bytes ≡ Rejected line reason.NoReport before) ↔ LacksReport (lines_of bytes) line before }
    ensures wrong { (bytes : List ℕ) (line : ℕ) (before : Option Script) → length bytes ≤ MOST_BYTES
        → (verdict bytes ≡ Rejected line reason.WrongReport before) ↔ HasWrongReport (lines_of bytes) line before }
{}

/// If an input of at most 1,048,576 bytes is refused for another reason than its report, the lines
/// before the first one that is `--` or a `show` line are a script that is refused at that line, for that
/// reason. Or these lines are a whole script, and the `show` line behind them is refused as
/// `Reason::BadLine`. The records are those of the lines before the refused one.
///
/// In a longer input, the lines before the one that contains the byte at place 1,048,576, counted
/// from 0, are an input of at most 1,048,576 bytes. If that one is refused at one of its lines, the
/// longer input is refused at the same line, for the same reason. Otherwise it is refused at the
/// next line as `Reason::TooLong`, after the records of the trace.
pub fn a_refused_trace_breaks_at_that_line()
    ensures script { (bytes : List ℕ) (line : ℕ) (why : Reason) (before : Option Script) → length bytes ≤ MOST_BYTES → is_of_report why ≡ false
        → verdict bytes ≡ Rejected line why before → BreaksTraceAt (lines_of bytes) line why before ⊎ ShowsAt (lines_of bytes) line why before }
    ensures too_long { (bytes : List ℕ) (line : ℕ) (why : Reason) (before : Option Script) → MOST_BYTES < length bytes
        → verdict bytes ≡ Rejected line why before → IsRefusedBelow bytes line why before ⊎ IsTooLongAt bytes line why before }
{}

/// Two lists of texts have no first difference if and only if they are equal. Otherwise the first
/// difference is the place at which they part.
pub fn the_first_difference_is_where_texts_part()
    ensures none { (number : ℕ) (texts others : List (List ℕ)) → (first_difference number texts others ≡ None) ↔ (texts ≡ others) }
    ensures some { (number place : ℕ) (texts others : List (List ℕ)) → (first_difference number texts others ≡ Some place) ↔ PartAt number texts others place }
{}

/// If a script can say a legal run, what the run prints has at most 1,048,576 bytes and is upheld.
/// Its audit returns that run and its certificates, unless memory runs out.
pub fn what_a_run_prints_is_upheld()
    ensures short { (config : Counts) (run : List Entry) → IsSayable store_language config run → length (printed config run) ≤ MOST_BYTES }
    ensures upheld { (config : Counts) (run : List Entry) → IsSayable store_language config run → verdict (printed config run) ≡ Upheld config (oldest_first run) }
    ensures audited { (config : Counts) (run : List Entry) (result : Result Audited Unaudited) → IsSayable store_language config run
        → Audits (verdict (printed config run)) result → MatchResult result (IsAuditedRun config run) (λ e. e ≡ NoMemory) }
{}
