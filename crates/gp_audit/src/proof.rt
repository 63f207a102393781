//! Proofs that a learner came to hold a command.
ghost use Rattle.std.specs.Prelude.{◌≡◌};

use gp_command::CommandId;
use gp_round::Round;
use std::marker::Model;

/// What a learner took when it came to hold a command.
#[derive(Clone, Copy, Debug, PartialEq, Eq)]
pub enum Cause {
    /// A vote of a round of its epoch. The mask has bit i for acceptor i. Its acceptors are a
    /// quorum of the round. The learner holds a vote of each of them, and the meet of these votes
    /// has the command.
    Quorum { epoch: u32, round: Round, mask: u8 },
    /// The Final message with this number, counted from 0 over all messages that were sent.
    Final { message: u64 },
}

/// Why a learner holds a command.
#[derive(Clone, Copy, Debug, PartialEq, Eq)]
pub struct Proof {
    /// The command.
    pub id: CommandId,
    /// The number, from 0, of the record by which the learner came to hold it.
    pub at: u64,
    /// What the learner took in that record.
    pub cause: Cause,
}

/// Proofs, in the order of their commands. A contract sees them as a list.
#[derive(Drop)]
pub struct Proofs {
    items: Vec<Proof>,
}

impl Model for Proofs {
    ghost use Rattle.std.specs.Prelude.{List};
    ghost use Rattle.gp_audit.specs.declared.proof.Proof.{Proof};

    ghost Value = { List Proof };

    ghost view = { λ p. p.items.items };
}

impl Proofs {
    /// The proofs.
    pub fn as_slice(&self) -> &[Proof]
        ensures { result.now ≡ self.now }
    {
        &self.items
    }
}

impl From<Vec<Proof>> for Proofs {
    ghost use Rattle.std.specs.Prelude.{◌≡◌};

    ghost from_gives = { λ items proofs. proofs ≡ items.items };

    fn from(items: Vec<Proof>) -> Proofs {
        Proofs { items }
    }
}
