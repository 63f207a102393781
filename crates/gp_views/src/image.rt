//! One of the two copies that readers and the feed share, and what a publish does to it.
ghost use Rattle.std.specs.Prelude.{◌≡◌, ◌+◌, IfOk, OnOk, OnErr};
ghost use Rattle.std.specs.Option.{ForSome};
ghost use Rattle.gp_store.specs.Effects.{after_command, store_rules};

use crate::book::{Batch, Goal, Mark};
use gp_command::{Command, NoMemory};
use gp_replica::Machine;
use gp_store::KeyStore;
use left_right::Absorb;
use std::alloc::{AllocError, Global};

/// What both copies have in common: a store, how many commands it has run, and the list that it
/// represents. No value of this type is made.
pub struct Shown {
    pub store: KeyStore,
    pub count: u64,
    pub goal: Batch,
}

/// A store, how many commands it has run, the list that it represents, and the mark of that list.
/// The copy that readers do not take may have no mark.
#[derive(Drop)]
pub struct Image {
    pub store: KeyStore,
    pub count: u64,
    pub goal: Goal,
    pub mark: Option<Mark>,
    alloc: Global,
    ghost marked: { ForSome mark (λ m. m ≡ goal) },
}

/// A change of an image.
#[derive(Drop)]
pub enum Change {
    /// It has run nothing, as at the start.
    Restart,
    /// It runs the command.
    Run(Command),
    /// It represents the batch's list from now on.
    Reach(Batch),
}

impl Image {
    ghost use Rattle.gp_views.specs.Images.{shown_of};

    /// An image that has run nothing. It represents the list of the mark, which must be the batch's
    /// list.
    pub fn new(alloc: Global, batch: &Batch, mark: &Mark) -> Result<Image, NoMemory>
        requires { mark.now ≡ batch.now }
        ensures { IfOk result (λ x. shown_of x
            ≡ record { store = store_rules.opening; count = 0; goal = batch.now }) }
    {
        Ok(Image {
            store: KeyStore::opening(alloc)?,
            count: 0,
            goal: Goal::of(batch),
            mark: Some(mark.copy()),
            alloc,
        })
    }

    fn restart(&mut self) -> Result<(), NoMemory>
        ensures next { OnOk result (shown_of self.new
            ≡ record (shown_of self.old) { store = store_rules.opening; count = 0 }) }
        ensures unchanged { OnErr result (shown_of self.new ≡ shown_of self.old) }
    {
        self.store = KeyStore::opening(self.alloc)?;
        self.count = 0;
        Ok(())
    }

    // If the count is the greatest number of its type, the result is `NoMemory`.
    fn run(&mut self, c: &Command) -> Result<(), NoMemory>
        ensures next { OnOk result (shown_of self.new
            ≡ record (shown_of self.old) { store = after_command self.old.store c.now; count = self.old.count + 1 }) }
        ensures unchanged { OnErr result (shown_of self.new ≡ shown_of self.old) }
    {
        let Some(count) = self.count.checked_add(1) else {
            return Err(NoMemory);
        };
        self.store.apply(c)?;
        self.count = count;
        Ok(())
    }

    fn reach(&mut self, batch: &Batch, mark: Option<Mark>)
        requires { ForSome mark (λ m. m ≡ batch.now) }
        ensures { shown_of self.new ≡ record (shown_of self.old) { goal = batch.now } }
    {
        self.goal = Goal::of(batch);
        self.mark = mark;
    }
}

impl Absorb<Change> for Image {
    ghost use Rattle.gp_views.specs.Images.{shown_of, changed};

    type State = Shown;

    ghost state = { shown_of };

    ghost applied = { changed };

    fn absorb_first(&mut self, change: &Change, _other: &Image) -> Result<(), AllocError> {
        let done = match change {
            Change::Restart => self.restart(),
            Change::Run(c) => self.run(c),
            Change::Reach(batch) => {
                self.reach(batch, batch.commit());
                Ok(())
            }
        };
        match done {
            Ok(()) => Ok(()),
            Err(NoMemory) => Err(AllocError),
        }
    }

    // The list was committed when the other copy took it in.
    fn absorb_second(&mut self, change: Change, _other: &Image) -> Result<(), Change> {
        let done = match &change {
            Change::Restart => self.restart(),
            Change::Run(c) => self.run(c),
            Change::Reach(batch) => {
                self.reach(batch, None);
                Ok(())
            }
        };
        match done {
            Ok(()) => Ok(()),
            Err(NoMemory) => Err(change),
        }
    }
}
