//! How the two copies are shared: the rule that `left_right` keeps, and what its steps say.
ghost use Rattle.gp_views.specs.Sights.{Keeps, Finds, joined};

use crate::book::Mark;
use crate::image::{Change, Image};
use atomic_table::{Join, Split};
use crossbeam_utils::rule::{Outcome, Protocol};
use left_right::reader;
use left_right::writer::Writer;

/// The image has run the list that it represents. What a seat knows is the feed, or nothing. Of the
/// mark in this type only the feed counts, and no value of it is made.
pub struct Whole;

impl Protocol<Image, Option<Mark>> for Whole {
    ghost use Rattle.std.specs.Prelude.{None};

    ghost holds = { Keeps };

    ghost first = { None };
}

/// A read.
pub struct Finding;

impl Outcome<Image, Option<Mark>> for Finding {
    ghost then = { λ v x y w. Finds v x w };
}

/// A publish.
pub struct Showing;

impl Outcome<Image, Option<Mark>> for Showing {
    ghost use Rattle.std.specs.Prelude.{◌≡◌, Some};

    ghost then = { λ v x y w. w ≡ Some y.goal };
}

/// A seat learns the feed.
pub struct Telling;

impl Split<Option<Mark>> for Telling {
    ghost left = { λ v. v };

    ghost right = { λ v. v };
}

impl Join<Option<Mark>> for Telling {
    ghost use Rattle.std.specs.Prelude.{None};

    ghost both = { joined };

    ghost spent = { None };
}

/// A reader of the two copies.
pub type ReaderEnd = reader::Reader<Image, Option<Mark>, Whole>;

/// The writer of the two copies.
pub type FeedEnd = Writer<Image, Change, Option<Mark>, Whole>;
