//! Lists of offers.
ghost use Rattle.std.specs.Prelude.{◌≡◌, ◌++◌, ◌∷◌, [], IfErr, OnOk, OnErr};

use gp_command::Draft;
use std::alloc::Global;
use std::marker::Model;

/// Offers, in their order: for each the number of its proposer, and the draft that is offered. A
/// contract sees them as a list.
#[derive(Drop)]
pub struct OfferList {
    items: Vec<(u32, Draft)>,
}

impl Model for OfferList {
    ghost use Rattle.std.specs.Prelude.{ℕ, List};
    ghost use Rattle.gp_command.specs.Views.{DraftView};

    ghost Value = { List (ℕ × DraftView) };

    ghost view = { λ o. o.items.items };
}

impl OfferList {
    /// A list without offers.
    pub fn new(alloc: Global) -> OfferList
        ensures { result ≡ [] }
    {
        OfferList {
            items: Vec::new(alloc),
        }
    }

    /// Appends an offer. If memory runs out, the offer is returned and the list stays unchanged.
    pub fn push(&mut self, item: (u32, Draft)) -> Result<(), (u32, Draft)>
        ensures pushed { OnOk result (self.new ≡ self.old ++ item ∷ []) }
        ensures unchanged { OnErr result (self.new ≡ self.old) }
        ensures back { IfErr result (λ o. o ≡ item) }
    {
        match self.items.push(item) {
            Ok(()) => Ok(()),
            Err(refused) => Err(refused.value),
        }
    }

    /// The offers, in their order.
    pub fn as_slice(&self) -> &[(u32, Draft)]
        ensures { result.now ≡ self.now }
    {
        &self.items
    }
}
