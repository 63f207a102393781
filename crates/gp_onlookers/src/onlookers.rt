//! A publisher, and two watchers of one key.
ghost use Rattle.std.specs.Prelude.{◌≡◌, [], false, IfOk, OnOk, IsTrue};
ghost use Rattle.gp_history.specs.Sequence.{history_of, no_repeat};
ghost use Rattle.gp_phase.specs.Beside.{topics};
ghost use Rattle.gp_views.specs.Lists.{Extends};
ghost use Rattle.gp_onlookers.specs.Ends.{AreWatching, HasFailedNowhere, topic_of};
ghost use Rattle.gp_onlookers.specs.Looks.{look_after, AreLooks, AreSeen};

use crate::catching::{catch_up, ids_of};
use crate::looks::{Look, Looks};
use crate::publisher::Publisher;
use crate::watcher::Watcher;
use gp_command::{Key, NoMemory};
use gp_history::Hist;
use gp_index::History;
use gp_phase::Trio;
use gp_replica::Replica;
use gp_store::KeyStore;
use gp_views::Feed;
use std::alloc::Global;
use std::sync::Wait;

/// A publisher and two watchers of its feed, which look at one key. It is not `Drop`: end it with
/// `last_looks` or `close`.
pub type Onlookers = Trio<Publisher, Watcher>;

/// New onlookers at the key, which have not looked yet. `NoMemory` if memory runs out.
pub fn watch<R: Wait>(rt: &R, alloc: Global, key: Key) -> Result<Onlookers, NoMemory>
    ensures watching { IfOk result (λ o. AreWatching key (topics (λ p. p.feed) topic_of o)) }
    ensures looks { IfOk result (λ o. (o.first.looks ≡ []) × (o.second.looks ≡ [])) }
    ensures whole { IfOk result (λ o. HasFailedNowhere o.main o.first o.second) }
{
    let replica = Replica::new(alloc)?;
    let (feed, mut readers) = Feed::new(rt, alloc, 2)?;
    match (readers.pop(), readers.pop()) {
        (Some(first), Some(second)) => Ok(Trio {
            main: Publisher {
                feed,
                replica,
                failed: false,
            },
            first: Watcher::new(alloc, first, key),
            second: Watcher::new(alloc, second, key),
        }),
        _ => {
            feed.close(rt);
            Err(NoMemory)
        }
    }
}

/// Closes the feed, and drops the readers.
pub fn close<R: Wait>(rt: &R, onlookers: Onlookers) {
    let Trio {
        main,
        first: _first,
        second: _second,
    } = onlookers;
    main.close(rt);
}

/// Has the replica catch up with the history, publishes what it ran, notifies both readers, and has
/// each of them read a last time. Returns what they saw at each look, and at the last one. The feed
/// is closed, also after an error. Returns `NoMemory` if memory runs out, if a catch-up, a publish
/// or a look was refused before, and also if the history does not extend what the replica ran or
/// has two commands with the same identity.
pub fn last_looks<R: Wait>(
    rt: &R,
    alloc: Global,
    key: Key,
    onlookers: Onlookers,
    learned: &History,
) -> Result<Looks, NoMemory>
    requires { AreWatching key (topics (λ p. p.feed) topic_of onlookers) }
    ensures seen { IfOk result (λ looks.
        AreSeen key (history_of learned.now) onlookers.first.looks onlookers.second.looks looks) }
    ensures whole { OnOk result (HasFailedNowhere onlookers.main onlookers.first onlookers.second) }
{
    let Trio {
        main: Publisher {
            mut feed,
            mut replica,
            failed,
        },
        first,
        second,
    } = onlookers;
    let looks = if failed {
        Err(NoMemory)
    } else {
        looks_of_both(
            rt,
            alloc,
            key,
            &mut feed,
            &mut replica,
            (first, second),
            learned,
        )
    };
    feed.close(rt);
    looks
}

// What both saw, after the replica has caught up, all is published, and both are notified.
fn looks_of_both<R: Wait>(
    rt: &R,
    alloc: Global,
    key: Key,
    feed: &mut Feed,
    replica: &mut Replica<KeyStore>,
    watchers: (Watcher, Watcher),
    learned: &History,
) -> Result<Looks, NoMemory>
    requires list { Extends replica.old feed.old.list }
    requires feed { (watchers.0.feed ≡ feed.old.feed) × (watchers.1.feed ≡ feed.old.feed) }
    requires key { (watchers.0.key ≡ key) × (watchers.1.key ≡ key) }
    ensures seen { IfOk result (λ looks.
        AreSeen key (history_of learned.now) watchers.0.looks watchers.1.looks looks) }
    ensures whole { OnOk result ((watchers.0.failed ≡ false) × (watchers.1.failed ≡ false)) }
{
    publish_all(rt, feed, replica, learned)?;
    let end = end_of(replica, key);
    let (first, second) = watchers;
    let first = last_looks_at(rt, feed, first, end)?;
    let second = last_looks_at(rt, feed, second, end)?;
    Ok(Looks {
        order: ids_of(alloc, replica.ran())?,
        first,
        second,
    })
}

// Has the replica catch up with the history, and publishes everything that it ran.
fn publish_all<R: Wait>(
    rt: &R,
    feed: &mut Feed,
    replica: &mut Replica<KeyStore>,
    learned: &History,
) -> Result<(), NoMemory>
    requires { Extends replica.old feed.old.list }
    ensures all { OnOk result (history_of replica.new ≡ history_of learned.now) }
    ensures published { OnOk result (feed.new.list ≡ replica.new) }
    ensures feed { feed.new.feed ≡ feed.old.feed }
{
    catch_up(replica, learned)?;
    feed.publish(rt, replica)?;
    Ok(())
}

// What a watcher saw, after it was notified of the published list, at whose end this is seen.
fn last_looks_at<R: Wait>(
    rt: &R,
    feed: &mut Feed,
    watcher: Watcher,
    end: Look,
) -> Result<Vec<Look>, NoMemory>
    requires feed { watcher.feed ≡ feed.old.feed }
    requires end { end ≡ look_after watcher.key feed.old.list }
    ensures looks { IfOk result (λ looks. AreLooks watcher.key feed.old.list watcher.looks looks.items) }
    ensures whole { OnOk result (watcher.failed ≡ false) }
    ensures kept { feed.new ≡ feed.old }
{
    watcher.last_looks(rt, feed.tell()?, end)
}

// What is seen of the key after everything that the replica ran, which has no command twice.
fn end_of(replica: &Replica<KeyStore>, key: Key) -> Look
    ensures end { result ≡ look_after key replica.now }
    ensures distinct { IsTrue (no_repeat replica.now) }
{
    Look {
        seen: replica.ran().len() as u64,
        value: replica.machine().get(key),
    }
}
