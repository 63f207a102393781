//! A replica that catches up with a learner, and publishes what it ran.
ghost use Rattle.std.specs.Prelude.{◌≡◌};
ghost use Rattle.gp_views.specs.Lists.{Extends};

use crate::catching::catch_up;
use gp_cell::{Cell, PaxosRules};
use gp_edge::Disk;
use gp_index::History;
use gp_phase::Beside;
use gp_replica::Replica;
use gp_store::KeyStore;
use gp_views::Feed;
use gp_wire::Wire;
use gp_work::Job;
use std::marker::Model;
use std::sync::Wait;

/// A replica of the key store that catches up with a learner, and a feed of what it ran. It is not
/// `Drop`: end it with `close`.
pub struct Publisher {
    pub(crate) feed: Feed,
    pub(crate) replica: Replica<KeyStore>,
    // it could not catch up, or could not publish
    pub(crate) failed: bool,
}

impl Model for Publisher {
    ghost use Rattle.gp_views.specs.Lists.{Extends};
    ghost use Rattle.gp_onlookers.specs.Ends.{PublisherView};

    ghost Value = { PublisherView };

    ghost view = { λ p. record { feed = p.feed.feed; ran = p.replica; failed = p.failed } };

    ghost invariant = { λ p. Extends p.replica p.feed.list };
}

impl Publisher {
    // The replica catches up with what was learned.
    fn follow(&mut self, learned: &History)
        ensures { self.new.feed ≡ self.old.feed }
    {
        if catch_up(&mut self.replica, learned).is_err() {
            self.failed = true;
        }
    }

    // Publishes what the replica ran.
    fn publish<R: Wait>(&mut self, rt: &R)
        ensures { self.new.feed ≡ self.old.feed }
    {
        if self.feed.publish(rt, &self.replica).is_err() {
            self.failed = true;
        }
    }

    /// Closes the feed.
    pub fn close<R: Wait>(self, rt: &R) {
        let Publisher {
            feed,
            replica: _replica,
            failed: _,
        } = self;
        feed.close(rt);
    }
}

/// Before each work phase a publisher catches up with the first learner, and while the nodes work
/// it publishes what it ran. No clause promises this.
impl<D: Disk> Beside<Wire<PaxosRules>, Cell<D>> for Publisher {
    ghost use Rattle.logbook.specs.Pages.{Book};

    ghost Topic = { Book };

    ghost topic = { λ publisher. publisher.feed };

    fn prepare(&mut self, jobs: &[Job<Cell<D>>]) {
        for job in jobs {
            if let Some(learned) = job.cell.learned() {
                self.follow(learned);
                return;
            }
        }
    }

    fn act<W: Wait>(&mut self, rt: &W) {
        self.publish(rt);
    }
}
