//! The trait of callers, which say which round begins next.
ghost use Rattle.std.specs.Prelude.{◌≡◌, ◌++◌, true, [], List, Option, IfOk, IfSome};
ghost use Rattle.std.specs.Option.{option_to_list};
ghost use Rattle.gp_round.specs.Counts.{Counts};
ghost use Rattle.gp_msg.specs.declared.node.Node.{Node};
ghost use Rattle.gp_msg.specs.declared.record.Record.{Record};
ghost use Rattle.gp_work.specs.declared.moves.Move.TheVariants as Move;
ghost use Rattle.gp_work.specs.Doing.{Goes, Posted};
ghost use Rattle.gp_work.specs.Moves.{Fits};
ghost use Rattle.gp_phase.specs.declared.caller.Call.{Call};

use gp_command::NoMemory;
use gp_round::Round;
use gp_work::Process;
use std::sync::Wait;

/// A round that is to begin, and the epoch for which it is meant.
#[derive(Clone, Copy, Debug, PartialEq, Eq)]
pub struct Call {
    pub epoch: u32,
    pub round: Round,
}

/// A caller watches what one node sees, and says before each work phase which round the node is to
/// begin in it.
pub trait Caller<N, P: Process<N>> {
    /// The node that begins the rounds.
    ghost node: { Self → Node };

    /// The configuration of that node.
    ghost config: { Self → Counts };

    /// The calls that it returned so far.
    ghost called: { Self → List Call };

    /// What it may return for a node of a configuration, if it returned these calls before and the
    /// node has seen these records.
    ghost answers: { Counts → Node → List Call → List Record → Option Call → Type 0 };

    /// What it knows of the records that the node has seen, so that it need not look at them again.
    ghost knows: { Self → List Record → Type 0 };

    /// How one look changes it, and what it may return then.
    ghost looks: { Self → Self → Option Call → Type 0 };

    /// It still knows this after the node has seen more.
    ghost lasts: { (caller : Self) (seen more : List Record) → knows caller seen → knows caller (seen ++ more) };

    /// Looks at all that was sent, as the node sees it, and returns the round that the node is to
    /// begin next, if there is one. The node is up and posts nothing. `NoMemory` means that memory
    /// ran out, or that the caller refuses as if it had.
    fn next<W: Wait>(&mut self, rt: &W, net: &N, cell: &mut P) -> Result<Option<Call>, NoMemory>
        requires own { P.is_of cell.old net.now }
        requires up { (P.state cell.old).up ≡ true }
        requires node { (P.state cell.old).node ≡ node self.old }
        requires config { (P.state cell.old).config ≡ config self.old }
        requires knows { knows self.old (P.state cell.old).list }
        ensures node { node self.new ≡ node self.old }
        ensures config { config self.new ≡ config self.old }
        ensures knows { knows self.new (P.state cell.new).list }
        ensures own { P.is_of cell.new net.now }
        ensures goes { Goes (P.state cell.old) (P.state cell.new) }
        ensures posts { Posted (P.state cell.old) (P.state cell.new) [] }
        ensures up { (P.state cell.new).up ≡ true }
        ensures called { IfOk result (λ c. called self.new ≡ called self.old ++ option_to_list c) }
        ensures look { IfOk result (looks self.old self.new) }
        ensures may { IfOk result (λ c. answers (config self.old) (node self.old) (called self.old) (P.state cell.new).list c) }
        ensures fits { IfOk result (λ c. IfSome c (λ x. Fits (config self.old) (node self.old) (Move.Begin x.round))) };
}
