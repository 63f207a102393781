//! The book of a feed: the lists that it commits, each of which extends those before it. The lists
//! exist only in proofs. Memory holds how many there are.
ghost use Rattle.std.specs.Prelude.{◌≡◌, [], false, IsTrue, IfOk, IfSome};
ghost use Rattle.std.specs.Arc.{arc_value};
ghost use Rattle.gp_views.specs.Books.{count_of};
ghost use Rattle.gp_views.specs.Lists.{Extends};

use gp_command::{Command, NoMemory};
use gp_index::History;
use logbook::{Gain, Opening, Plain, Play, Rule, Seen, Start, Word};
use std::alloc::Global;
use std::marker::Model;
use std::sync::Arc;

/// An entry of a book is a list of commands. No value of this type is made: a clause reads an array
/// as a list, of any length.
pub type List = [Command; 0];

/// The rule of a book.
pub struct Nested;

impl Rule<List, ()> for Nested {
    ghost use Rattle.std.specs.Prelude.{[]};
    ghost use base.Fml.{ftrue};
    ghost use Rattle.gp_views.specs.Books.{IsKept};

    ghost holds = { λ cells log. IsKept cells log };

    ghost first = { [] };

    ghost hinted = { λ n log. Unit {0} };

    ghost shows = { λ log. [] };

    ghost keeps = { λ names log. ftrue };

    ghost moves = { λ ask before after answer. Unit {0} };
}

// Callers gain nothing.
struct Nothing;

impl Gain<List, ()> for Nothing {
    ghost use base.Fml.{ftrue};

    ghost after = { λ names about answer. ftrue };
}

// A step that adds a list.
struct Add;

impl Play<List, ()> for Add {
    ghost use Rattle.gp_views.specs.Books.{Adds};

    ghost then = { Adds };
}

// What the step adds: the batch's list.
impl Plain<Batch, List, ()> for Add {
    ghost use Rattle.std.specs.Prelude.{None};

    ghost ask = { λ batch. batch.list };

    ghost state = { λ batch. None };
}

/// How many lists the book has. Threads share this count.
pub type Count = Word<List, (), Nested>;

/// A list that was committed, and how many there were then. A contract sees its feed and the list.
#[derive(Drop)]
pub struct Mark {
    seen: Seen<List, (), Nested>,
    lists: u64,
}

impl Model for Mark {
    ghost use Rattle.std.specs.Prelude.{◌≡◌, length};
    ghost use Rattle.gp_views.specs.Books.{last_of};
    ghost use Rattle.gp_views.specs.Ends.{Published};

    ghost Value = { Published };

    ghost view = { λ m. record { feed = m.seen.book; list = last_of m.seen.log } };

    ghost invariant = { λ m. m.lists ≡ length m.seen.log };
}

impl Mark {
    /// The same mark.
    pub fn copy(&self) -> Mark
        ensures { result ≡ self.now }
    {
        Mark {
            seen: self.seen.again(),
            lists: self.lists,
        }
    }

    /// Whether this list was committed no later than the other one. Of two lists of one feed, the
    /// later one extends the earlier one.
    pub fn is_no_later(&self, other: &Mark) -> bool
        requires { other.now.feed ≡ self.now.feed }
        ensures no_later { IsTrue result → Extends other.now.list self.now.list }
        ensures later { result ≡ false → Extends self.now.list other.now.list }
    {
        let mut both = self.seen.again();
        both.learn(&other.seen);
        self.lists <= other.lists
    }
}

// A rule that requires nothing.
struct Anything;

impl Rule<List, ()> for Anything {
    ghost use Rattle.std.specs.Prelude.{[]};
    ghost use base.Fml.{ftrue};

    ghost holds = { λ cells log. Unit {0} };

    ghost first = { [] };

    ghost hinted = { λ n log. Unit {0} };

    ghost shows = { λ log. [] };

    ghost keeps = { λ names log. ftrue };

    ghost moves = { λ ask before after answer. Unit {0} };
}

// A book that begins with what a replica ran.
impl Opening<History, List> for Anything {
    ghost use Rattle.std.specs.Prelude.{[], ◌∷◌};

    ghost log = { λ count ran. ran ∷ [] };
}

// What a replica ran, for clauses only: the one list of a book of its own. It has no bytes.
#[derive(Drop)]
struct Ran {
    list: Seen<List, (), Anything>,
}

impl Model for Ran {
    ghost use Rattle.std.specs.Prelude.{List};
    ghost use Rattle.gp_command.specs.declared.command.Command.{Command};
    ghost use Rattle.gp_views.specs.Books.{last_of};

    ghost Value = { List Command };

    ghost view = { λ r. last_of r.list.log };
}

impl Ran {
    fn of(ran: &History) -> Ran
        ensures { result ≡ ran.now }
    {
        let (list, _pens) = Seen::open_row::<History, Anything>(ran, Start::alone(), 0);
        Ran { list }
    }

    fn again(&self) -> Ran
        ensures { result ≡ self.now }
    {
        Ran {
            list: self.list.again(),
        }
    }
}

/// A list that may be committed next after the mark that it was made from. A contract sees its feed
/// and the list.
#[derive(Drop)]
pub struct Batch {
    count: Arc<Count, Global>,
    seen: Seen<List, (), Nested>,
    lists: u64,
    // what a replica ran, or nothing if the list is the last one again
    ran: Option<Ran>,
}

impl Model for Batch {
    ghost use Rattle.std.specs.Prelude.{◌≡◌, length, unwrap_or};
    ghost use Rattle.std.specs.Arc.{arc_value};
    ghost use Rattle.gp_views.specs.Books.{count_of, last_of};
    ghost use Rattle.gp_views.specs.Ends.{Published};
    ghost use Rattle.gp_views.specs.Lists.{Extends};

    ghost Value = { Published };

    ghost view = { λ b. record { feed = b.seen.book; list = unwrap_or b.ran (last_of b.seen.log) } };

    ghost invariant = { λ b. (arc_value b.count ≡ count_of b.seen.book) × (b.lists ≡ length b.seen.log)
        × Extends (unwrap_or b.ran (last_of b.seen.log)) (last_of b.seen.log) };
}

impl Batch {
    /// The list of the mark again.
    pub fn again(count: &Arc<Count, Global>, mark: &Mark) -> Result<Batch, NoMemory>
        requires { arc_value count.now ≡ count_of mark.now.feed }
        ensures { IfOk result (λ b. b ≡ mark.now) }
    {
        Ok(Batch {
            count: Arc::try_clone(count)?,
            seen: mark.seen.again(),
            lists: mark.lists,
            ran: None,
        })
    }

    /// What a replica ran. It must extend the list of the mark.
    pub fn of(count: &Arc<Count, Global>, mark: &Mark, ran: &History) -> Result<Batch, NoMemory>
        requires count { arc_value count.now ≡ count_of mark.now.feed }
        requires more { Extends ran.now mark.now.list }
        ensures { IfOk result (λ b. b ≡ record { feed = mark.now.feed; list = ran.now }) }
    {
        Ok(Batch {
            count: Arc::try_clone(count)?,
            seen: mark.seen.again(),
            lists: mark.lists,
            ran: Some(Ran::of(ran)),
        })
    }

    /// Commits the list and returns its mark. The result is `None` if another list was committed
    /// after the mark that the batch was made from, or if no number is left; no clause gives these
    /// causes.
    pub fn commit(&self) -> Option<Mark>
        ensures { IfSome result (λ m. m ≡ self.now) }
    {
        let lists = self.lists.checked_add(1)?;
        let mut seen = self.seen.again();
        let mut offer = seen.plain::<Nothing, Batch, Add>(self);
        let mut pen = seen.no_pen();
        let found = self
            .count
            .compare_exchange::<Add, Nothing>(self.lists, lists, &mut seen, &mut offer, &mut pen);
        if found == self.lists {
            Some(Mark { seen, lists })
        } else {
            None
        }
    }
}

/// The feed and the list of a batch, for clauses only. It has no bytes.
#[derive(Drop)]
pub struct Goal {
    seen: Seen<List, (), Nested>,
    ran: Option<Ran>,
}

impl Model for Goal {
    ghost use Rattle.std.specs.Prelude.{unwrap_or};
    ghost use Rattle.gp_views.specs.Books.{last_of};
    ghost use Rattle.gp_views.specs.Ends.{Published};

    ghost Value = { Published };

    ghost view = { λ g. record { feed = g.seen.book; list = unwrap_or g.ran (last_of g.seen.log) } };
}

impl Goal {
    /// The feed and the list of this batch.
    pub fn of(batch: &Batch) -> Goal
        ensures { result ≡ batch.now }
    {
        Goal {
            seen: batch.seen.again(),
            ran: again(&batch.ran),
        }
    }
}

fn again(ran: &Option<Ran>) -> Option<Ran>
    ensures { result ≡ ran.now }
{
    match ran {
        Some(ran) => Some(ran.again()),
        None => None,
    }
}

/// A new book without lists: the word that counts them, and a mark of the empty list.
pub fn open(alloc: Global) -> Result<(Arc<Count, Global>, Mark), NoMemory>
    ensures count { IfOk result (λ t. arc_value t.0 ≡ count_of t.1.feed) }
    ensures empty { IfOk result (λ t. t.1.list ≡ []) }
{
    let (seen, mut first, _second) = Seen::open(Start::alone(), 0, 0);
    let count = Arc::new(alloc, Word::tracked(0, &mut first))?;
    Ok((count, Mark { seen, lists: 0 }))
}
