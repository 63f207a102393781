//! Notes of what was published.
use crate::book::Mark;
use std::marker::Model;

/// A note of a feed's published list, which one reader learns. A contract sees its feed and the
/// list.
#[derive(Drop)]
pub struct Told {
    pub(crate) mark: Mark,
}

impl Model for Told {
    ghost use Rattle.gp_views.specs.Ends.{Published};

    ghost Value = { Published };

    ghost view = { λ t. t.mark };
}
