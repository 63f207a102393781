//! A reader of one key, which keeps what it saw.
ghost use Rattle.std.specs.Prelude.{◌≡◌, [], ◌∷◌, ◌++◌, false, IfOk, OnOk, map};
ghost use Rattle.gp_views.specs.Lists.{Extends};
ghost use Rattle.gp_onlookers.specs.Looks.{look_after, cut_at, AreLooks};
ghost use Rattle.gp_onlookers.specs.Steps.{HasLookedOnce};

use crate::looks::Look;
use gp_cell::{Cell, PaxosRules};
use gp_command::{Key, NoMemory};
use gp_edge::Disk;
use gp_phase::Beside;
use gp_views::{Reader, Told};
use gp_wire::Wire;
use gp_work::Job;
use std::alloc::Global;
use std::marker::Model;
use std::sync::Wait;

/// A reader, its key, and what it saw of the key.
#[derive(Drop)]
pub struct Watcher {
    reader: Reader,
    key: Key,
    looks: Vec<Look>,
    // a look could not be kept
    failed: bool,
}

impl Model for Watcher {
    ghost use Rattle.gp_onlookers.specs.Ends.{WatcherView};
    ghost use Rattle.gp_onlookers.specs.Looks.{HasLooked};

    ghost Value = { WatcherView };

    ghost view = { λ w. record {
      key = w.key;
      feed = w.reader.feed;
      seen = w.reader.seen;
      told = w.reader.told;
      looks = w.looks.items;
      failed = w.failed;
    } };

    ghost invariant = { λ w. HasLooked w.key w.reader.seen w.looks.items };
}

impl Watcher {
    /// A watcher that has not looked yet.
    pub fn new(alloc: Global, reader: Reader, key: Key) -> Watcher
        ensures { result ≡ record { key = key; feed = reader.feed; seen = reader.seen; told = reader.told; looks = []; failed = false } }
    {
        Watcher {
            reader,
            key,
            looks: Vec::new(alloc),
            failed: false,
        }
    }

    /// Reads the key once and keeps what it saw. The reader has then seen all that it was notified
    /// of, and no fewer commands than at any look before. Returns `NoMemory` if the look cannot be
    /// kept; `last_looks` then returns it too.
    pub fn look<R: Wait>(&mut self, rt: &R) -> Result<(), NoMemory>
        ensures { HasLookedOnce self.old result self.new }
    {
        let value = self.reader.read(rt, self.key);
        let seen = self.reader.seen();
        match self.looks.push(Look { seen, value }) {
            Ok(()) => Ok(()),
            Err(_) => {
                self.failed = true;
                Err(NoMemory)
            }
        }
    }

    // Has the reader learn the note, and looks.
    #[tactic(auto, using(gp_views::proofs::Begun::extends_more))]
    fn look_as_told<R: Wait>(&mut self, rt: &R, told: Told) -> Result<(), NoMemory>
        requires { told.feed ≡ self.old.feed }
        ensures key { self.new.key ≡ self.old.key }
        ensures as_told { Extends self.new.seen told.list }
        ensures kept { OnOk result (self.new.looks ≡ self.old.looks ++ look_after self.new.key self.new.seen ∷ []) }
        ensures still { OnOk result (self.new.failed ≡ self.old.failed) }
    {
        self.reader.learn(told);
        self.look(rt)
    }

    /// Has the reader learn the note, looks a last time, and returns all looks. `end` is what is
    /// seen after the list of the note, and it replaces each look that has seen more. Returns
    /// `NoMemory` if this look or one before could not be kept.
    pub fn last_looks<R: Wait>(
        mut self,
        rt: &R,
        told: Told,
        end: Look,
    ) -> Result<Vec<Look>, NoMemory>
        requires feed { told.feed ≡ self.feed }
        requires end { end ≡ look_after self.key told.list }
        ensures looks { IfOk result (λ looks. AreLooks self.key told.list self.looks looks.items) }
        ensures whole { OnOk result (self.failed ≡ false) }
    {
        self.look_as_told(rt, told)?;
        let Watcher {
            reader: _reader,
            key: _,
            mut looks,
            failed,
        } = self;
        if failed {
            return Err(NoMemory);
        }
        cut(&mut looks, end);
        Ok(looks)
    }
}

/// While the nodes work, a watcher looks once. No clause promises this.
impl<D: Disk> Beside<Wire<PaxosRules>, Cell<D>> for Watcher {
    ghost use Rattle.gp_onlookers.specs.Ends.{WatcherTopic, topic_of};

    ghost Topic = { WatcherTopic };

    ghost topic = { topic_of };

    fn prepare(&mut self, jobs: &[Job<Cell<D>>]) {
        let _jobs = jobs;
    }

    fn act<W: Wait>(&mut self, rt: &W) {
        // a look that cannot be kept marks the watcher
        let _kept = self.look(rt);
    }
}

// Replaces each look that has seen more than `end` has.
fn cut(looks: &mut Vec<Look>, end: Look)
    ensures { looks.new.items ≡ map (cut_at end) looks.old.items }
{
    for place in 0..looks.len() {
        if looks[place].seen > end.seen {
            looks[place] = end;
        }
    }
}
