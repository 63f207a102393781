//! Laws of logs. Each function does nothing, and its contract is the law.
ghost use Rattle.std.specs.Prelude.{◌≡◌, ◌≤◌, ℕ, List, Err, nat_eq};
ghost use Rattle.gp_vlog.specs.Bodies.{LogEntry};
ghost use Rattle.gp_vlog.specs.Files.{is_limit, read_log};
ghost use Rattle.gp_vlog.specs.Breaks.{IsFirstBreak};
ghost use Rattle.gp_vlog.specs.Logs.{HoldsEntries};

use crate::header::{LEAST_LIMIT, MOST_LIMIT};

/// Bytes that hold a log do not break its format. So `open` and `reopen` never return `NotLog` for
/// the disk of a log that was created, whatever crash happened inside an append or a renewal.
#[tactic(auto, using(crate::proofs::Openings::no_break))]
pub fn a_log_is_opened()
    ensures opened { (limit : ℕ) (es : List LogEntry) (s : List ℕ) (at : ℕ) → HoldsEntries limit es s → read_log is_limit s ≡ Err at → ⊥ }
    ensures again { (limit : ℕ) (es : List LogEntry) (s : List ℕ) (at : ℕ) → LEAST_LIMIT ≤ limit → limit ≤ MOST_LIMIT → HoldsEntries limit es s → read_log (nat_eq limit) s ≡ Err at → ⊥ }
{}

/// The place in `NotLog` is the smallest at which the bytes break the format in one of six ways:
/// the file has ended, a byte of the name is wrong, the limit is out of range, a byte after the
/// switch is not zero, the active area has no gate, or an open gate has no whole entry. Bytes that
/// hold a log break it nowhere.
#[tactic(auto, using(crate::proofs::FirstBreaks::first_break_of_log, crate::proofs::FirstBreaks::first_break_again))]
pub fn a_break_is_the_first()
    ensures opened { (s : List ℕ) → IsFirstBreak is_limit s (read_log is_limit s) }
    ensures again { (limit : ℕ) (s : List ℕ) → LEAST_LIMIT ≤ limit → IsFirstBreak (nat_eq limit) s (read_log (nat_eq limit) s) }
{}
