//! Readers.
ghost use Rattle.std.specs.Prelude.{◌≡◌, ◌⊎◌, [], Some, false, IsTrue, IfOk, OnOk, OnErr, length};
ghost use Rattle.left_right.specs.Sides.{view};
ghost use Rattle.logbook.specs.Pages.{Book};
ghost use Rattle.gp_replica.specs.Machines.{state_after};
ghost use Rattle.gp_store.specs.Effects.{store_rules};
ghost use Rattle.gp_store.specs.Pairs.{value_at};
ghost use Rattle.gp_views.specs.Lists.{Extends};
ghost use Rattle.gp_views.specs.Sights.{known};

use crate::book::Mark;
use crate::sight::{Finding, ReaderEnd};
use crate::told::Told;
use core::mem::replace_with;
use crossbeam_utils::Backoff;
use gp_command::Key;
use std::marker::Model;
use std::sync::Wait;

/// No read was made: the feed was closed. No clause says so; a test shows that a closed feed is not
/// read.
#[derive(Clone, Copy, Debug, PartialEq, Eq)]
pub struct Unread;

/// A reader of what a feed publishes. Of its calls only `read` may wait.
#[derive(Drop)]
pub struct Reader {
    end: ReaderEnd,
    seen: Mark,
    told: Mark,
    count: u64,
}

impl Model for Reader {
    ghost use Rattle.std.specs.Prelude.{◌≡◌, Some, length};
    ghost use Rattle.left_right.specs.Sides.{view as sight};
    ghost use Rattle.gp_views.specs.Ends.{ReaderView};
    ghost use Rattle.gp_views.specs.Sights.{known};

    ghost Value = { ReaderView };

    ghost view = { λ r. record { feed = r.seen.feed; seen = r.seen.list; told = r.told.list } };

    ghost invariant = { λ r. (r.count ≡ length r.seen.list) × (r.told.feed ≡ r.seen.feed)
        × (known (sight r.end.place) ≡ Some r.seen.feed) };
}

// What a read finds.
#[derive(Drop)]
struct Found {
    value: Option<u64>,
    count: u64,
    mark: Mark,
}

impl Reader {
    /// A reader that has seen the list of the mark, which is empty.
    pub(crate) fn new(end: ReaderEnd, mark: &Mark) -> Reader
        requires feed { known (view end.place) ≡ Some mark.now.feed }
        requires empty { mark.now.list ≡ [] }
        ensures { result ≡ record { feed = mark.now.feed; seen = []; told = [] } }
    {
        Reader {
            end,
            seen: mark.copy(),
            told: mark.copy(),
            count: 0,
        }
    }

    /// How many commands it has seen.
    pub fn seen(&self) -> u64
        ensures { result ≡ length self.now.seen }
    {
        self.count
    }

    /// Learns what was published when the note was made: later reads see that list, or one that
    /// extends it. The note must be of the reader's feed. The reader keeps the longest list of its
    /// notes, which extends the others.
    pub fn learn(&mut self, told: Told)
        requires { told.feed ≡ self.old.feed }
        ensures told { Extends self.new.told told.list }
        ensures before { Extends self.new.told self.old.told }
        ensures one { (self.new.told ≡ told.list) ⊎ (self.new.told ≡ self.old.told) }
        ensures kept { (self.new.feed ≡ self.old.feed) × (self.new.seen ≡ self.old.seen) }
    {
        let Told { mark } = told;
        if self.told.is_no_later(&mark) {
            self.told = mark;
        }
    }

    /// The value at the key after the commands that the reader has seen then, or `None` if the key
    /// is absent. These commands extend what it had seen before, and each list that it learned from
    /// a note. After `Unread` the reader has seen what it had seen before. `Unread` comes if the
    /// feed was closed; no clause says when it is returned.
    pub fn get(&mut self, key: Key) -> Result<Option<u64>, Unread>
        ensures value { IfOk result (λ value. value ≡ value_at (state_after store_rules self.new.seen) key) }
        ensures later { OnOk result (Extends self.new.seen self.old.seen) }
        ensures as_told { OnOk result (Extends self.new.seen self.old.told) }
        ensures unread { OnErr result (self.new.seen ≡ self.old.seen) }
        ensures kept { (self.new.feed ≡ self.old.feed) × (self.new.told ≡ self.old.told) }
    {
        let found = replace_with(&mut self.end, key, look)?;
        if !self.seen.is_no_later(&found.mark) || !self.told.is_no_later(&found.mark) {
            return Err(Unread);
        }
        self.seen = found.mark;
        self.count = found.count;
        Ok(found.value)
    }

    /// The same, repeated until a read is made. No clause says that the call returns.
    pub fn read<R: Wait>(&mut self, rt: &R, key: Key) -> Option<u64>
        ensures value { result ≡ value_at (state_after store_rules self.new.seen) key }
        ensures later { Extends self.new.seen self.old.seen }
        ensures as_told { Extends self.new.seen self.old.told }
        ensures kept { (self.new.feed ≡ self.old.feed) × (self.new.told ≡ self.old.told) }
    {
        let backoff = Backoff::new();
        for _ in rt.forever() {
            if let Ok(value) = self.get(key) {
                return value;
            }
            backoff.snooze();
        }
        unreachable!()
    }

    /// Whether what this reader has seen was published no later than what the other one has seen.
    /// Both must be readers of the same feed. Of what they have seen, one list extends the other.
    pub fn is_no_later(&self, other: &Reader) -> bool
        requires { other.now.feed ≡ self.now.feed }
        ensures no_later { IsTrue result → Extends other.now.seen self.now.seen }
        ensures later { result ≡ false → Extends self.now.seen other.now.seen }
    {
        self.seen.is_no_later(&other.seen)
    }

    /// Whether the list of the note was published no later than what the reader has seen. The note
    /// must be of the reader's feed. Of the two lists, one extends the other.
    pub fn has_seen(&self, told: &Told) -> bool
        requires { told.now.feed ≡ self.now.feed }
        ensures seen { IsTrue result → Extends self.now.seen told.now.list }
        ensures unseen { result ≡ false → Extends told.now.list self.now.seen }
    {
        told.mark.is_no_later(&self.seen)
    }
}

fn look(end: ReaderEnd, key: Key) -> (ReaderEnd, Result<Found, Unread>)
    ensures value { IfOk result.1 (λ found. found.value ≡ value_at (state_after store_rules found.mark.list) key) }
    ensures count { IfOk result.1 (λ found. found.count ≡ length found.mark.list) }
    ensures feed { IfOk result.1 (λ found. (feed : Book)
        → known (view end.place) ≡ Some feed → found.mark.feed ≡ feed) }
    ensures kept { view result.0.place ≡ view end.place }
{
    match end.enter_as::<Finding>() {
        Ok(reading) => {
            let image = reading.get();
            let found = match &image.mark {
                Some(mark) => Ok(Found {
                    value: image.store.get(key),
                    count: image.count,
                    mark: mark.copy(),
                }),
                None => Err(Unread),
            };
            (reading.leave(), found)
        }
        Err(end) => (end, Err(Unread)),
    }
}
