//! Moves of a node.
ghost use Rattle.std.specs.Prelude.{◌≡◌, ◌++◌, ◌∷◌, [], IfErr, OnOk, OnErr};

use gp_command::Draft;
use gp_round::Round;
use std::alloc::Global;
use std::marker::Model;

/// What a node is to do next.
#[derive(Drop, Debug)]
pub enum Move {
    /// A proposer offers a draft.
    Offer(Draft),
    /// A coordinator begins a round that it owns.
    Begin(Round),
    /// The node takes the message with this number, from 0.
    Take(u64),
}

/// Moves, in their order. A contract sees them as a list.
#[derive(Drop)]
pub struct Moves {
    pub(crate) items: Vec<Move>,
}

impl Model for Moves {
    ghost use Rattle.std.specs.Prelude.{List};
    ghost use Rattle.gp_work.specs.declared.moves.Move.{Move};

    ghost Value = { List Move };

    ghost view = { λ m. m.items.items };
}

impl Moves {
    /// No moves.
    pub fn new(alloc: Global) -> Moves
        ensures { result ≡ [] }
    {
        Moves {
            items: Vec::new(alloc),
        }
    }

    /// Appends a move. If memory runs out, the move comes back and the list stays unchanged.
    pub fn push(&mut self, item: Move) -> Result<(), Move>
        ensures pushed { OnOk result (self.new ≡ self.old ++ item ∷ []) }
        ensures unchanged { OnErr result (self.new ≡ self.old) }
        ensures back { IfErr result (λ m. m ≡ item) }
    {
        match self.items.push(item) {
            Ok(()) => Ok(()),
            Err(refused) => Err(refused.value),
        }
    }

    /// The moves, in their order.
    pub fn as_slice(&self) -> &[Move]
        ensures { result.now ≡ self.now }
    {
        &self.items
    }
}
