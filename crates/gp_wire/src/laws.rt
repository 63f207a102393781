//! Laws of wires. Each function does nothing, and its contract is the law.
ghost use Rattle.gp_wire.specs.Looks.{NoLookMissed, EachHasTurn};

use crate::rules::Rules;

/// A message of a closed list that a look did not find was posted in a turn after that of the look.
/// So no look misses a message that was posted before its turn. The look finds no message k in what
/// its pass has then seen, and after any further calls the pass is one of those that close the
/// wire. `numbered` says that each message of the closed list has the number of a turn.
pub fn no_look_missed_a_message<R: Rules>()
    ensures missed { (rules : R) → NoLookMissed (R.legal rules) }
    ensures numbered { (rules : R) → EachHasTurn (R.legal rules) }
{}
