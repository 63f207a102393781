//! Why a script is refused.
ghost use Rattle.std.specs.Prelude.{◌≡◌};
ghost use Rattle.gp_script.specs.declared.reason.Reason.TheVariants as variant;
ghost use Rattle.gp_script.specs.Reasons.{fault_reason};

use gp_store::OpFault;

/// Why a line of a script, or of what an audit reads, is refused. The first cause in the order of a
/// line's tokens decides.
#[derive(Clone, Copy, Debug, PartialEq, Eq)]
pub enum Reason {
    /// The line holds the byte at place 1,048,576 of the input, counted from 0.
    TooLong,
    /// The first line that is not passed over is not a `nodes` line, or there is no such line.
    NoNodesLine,
    /// The first word is unknown or a second `nodes`, or the other words are not those of the
    /// table. In a script of `run` it is also the reason for every other line that is no offer, and
    /// in the trace of an audit for every `show` line.
    BadLine,
    /// A number is not spelled in decimal without leading zeros, or is out of its range: 2^64 or
    /// more, or 2^32 or more for an amount of an account.
    BadNumber,
    /// A number of nodes, or the count of a round, is out of range.
    BadCount,
    /// A key is not 1 to 16 bytes of `a` to `z`, `0` to `9` and `_`.
    BadKey,
    /// There is no such node, or one of its kind cannot be named here.
    NoNode,
    /// A node of this kind cannot crash in this way.
    BadFall,
    /// The message was not sent yet.
    NoMessage,
    /// It is the 1,025th offer, or the 65th in a script of `run`.
    TooManyCommands,
    /// It is the 16,385th event.
    TooManyEvents,
    /// Of an audit alone: no line `--` follows the trace. The refused line is the one after the last.
    NoReport,
    /// Of an audit alone: the line differs from the line of the report at its place, or the report
    /// has no line at its place, or it is the line after the last and the report has more lines.
    WrongReport,
}

impl From<OpFault> for Reason {
    ghost from_gives = { λ fault reason. reason ≡ fault_reason fault };

    fn from(fault: OpFault) -> Reason {
        match fault {
            OpFault::BadKey => Reason::BadKey,
            OpFault::BadNumber => Reason::BadNumber,
        }
    }
}

impl From<gp_round::BadCount> for Reason {
    ghost from_gives = { λ _ reason. reason ≡ variant.BadCount };

    fn from(_refused: gp_round::BadCount) -> Reason {
        Reason::BadCount
    }
}
