//! The feed.
ghost use Rattle.std.specs.Prelude.{◌≡◌, ◌+◌, ◌≤◌, [], ◌∷◌, ◌++◌, Some, All, IfOk, IfSome, OnOk, OnErr, length, drop, map, fold, false};
ghost use Rattle.std.specs.Option.{ForSome};
ghost use Rattle.std.specs.Arc.{arc_value};
ghost use Rattle.left_right.specs.Sides.{view};
ghost use Rattle.gp_views.specs.declared.image.Change.TheVariants.{Restart, Run, Reach};
ghost use Rattle.gp_views.specs.Books.{count_of};
ghost use Rattle.gp_views.specs.Images.{IsWhole, MayFollow, changed, listed, shown_of};
ghost use Rattle.gp_views.specs.Lists.{Extends};
ghost use Rattle.gp_views.specs.Sights.{known};

use crate::book::{Batch, Count, Mark, open};
use crate::image::{Change, Image};
use crate::reader::Reader;
use crate::sight::{FeedEnd, Showing, Telling};
use crate::told::Told;
use core::mem::replace_with;
use gp_command::NoMemory;
use gp_history::Hist;
use gp_index::History;
use gp_replica::Replica;
use gp_store::KeyStore;
use std::alloc::{AllocError, Global};
use std::marker::Model;
use std::sync::{Arc, Wait};

/// Publishes the commands that a replica ran, so that readers see them. A contract sees the feed
/// and its published list. A feed is not `Drop`: end it with `close`.
pub struct Feed {
    end: FeedEnd,
    count: Arc<Count, Global>,
    // the last mark of the list
    mark: Option<Mark>,
    // a publish was refused and may have left changes that are not of the list
    stale: bool,
}

impl Model for Feed {
    ghost use Rattle.std.specs.Prelude.{◌≡◌, false, [], drop};
    ghost use Rattle.std.specs.Option.{ForSome};
    ghost use Rattle.std.specs.Arc.{arc_value};
    ghost use Rattle.gp_views.specs.Books.{count_of};
    ghost use Rattle.gp_views.specs.Ends.{Published};

    ghost Value = { Published };

    ghost use Rattle.gp_views.specs.Images.{IsWhole, shown_of};

    ghost view = { λ f. f.end.desk.shown.value.goal };

    ghost invariant = { λ f. IsWhole (shown_of f.end.desk.shown.value)
        × (arc_value f.count ≡ count_of f.end.desk.shown.value.goal.feed)
        × ForSome f.mark (λ m. m ≡ f.end.desk.shown.value.goal)
        × (f.stale ≡ false → drop f.end.behind f.end.log.items ≡ []) };
}

impl Feed {
    /// A feed that has published nothing, and its `readers` readers, from 1 to 16. `NoMemory` if
    /// memory runs out.
    pub fn new<R: Wait>(
        rt: &R,
        alloc: Global,
        readers: u32,
    ) -> Result<(Feed, Vec<Reader>), NoMemory>
        requires readers { (1 ≤ readers) × (readers ≤ 16) }
        ensures feed { IfOk result (λ t. t.0.list ≡ []) }
        ensures count { IfOk result (λ t. length t.1.items ≡ readers) }
        ensures readers { IfOk result (λ t. All (λ r.
            (r.feed ≡ t.0.feed) × (r.seen ≡ []) × (r.told ≡ [])) t.1.items) }
    {
        let (count, mark) = open(alloc)?;
        let mut end = first_end(rt, alloc, &count, &mark, readers)?;
        match first_readers(alloc, &mut end, &mark, readers) {
            Ok(readers) => {
                let feed = Feed {
                    end,
                    count,
                    mark: Some(mark),
                    stale: false,
                };
                Ok((feed, readers))
            }
            Err(refused) => {
                drop(end.take(rt));
                Err(refused)
            }
        }
    }

    /// Publishes what the replica ran after the published list, and returns how many commands these
    /// were. What the replica ran must extend the published list. If memory runs out, the published
    /// list stays as it was.
    pub fn publish<R: Wait>(
        &mut self,
        rt: &R,
        replica: &Replica<KeyStore>,
    ) -> Result<usize, NoMemory>
        requires { Extends replica.now self.old.list }
        ensures published { OnOk result (self.new.list ≡ replica.now) }
        ensures count { IfOk result (λ count. length self.old.list + count ≡ length replica.now) }
        ensures unchanged { OnErr result (self.new.list ≡ self.old.list) }
        ensures feed { self.new.feed ≡ self.old.feed }
    {
        let ran = replica.ran();
        let before = self.end.published().count as usize;
        if before == ran.len() {
            return Ok(0);
        }
        let batch = self.batch(ran)?;
        let stale = self.stale;
        self.stale = true;
        append(&mut self.end, stale, ran, before, batch)?;
        replace_with(&mut self.end, rt, show)?;
        self.mark = mark_of(self.end.published());
        self.stale = false;
        Ok(ran.len() - before)
    }

    /// A note of the published list, for one reader. The feed stays as it was. `NoMemory` means
    /// that the published copy has no mark. By the code of `left_right` this cannot happen, but no
    /// clause excludes it.
    pub fn tell(&mut self) -> Result<Told, NoMemory>
        ensures told { IfOk result (λ told. told ≡ self.old) }
        ensures kept { self.new ≡ self.old }
    {
        match mark_of(self.end.published()) {
            Some(mark) => Ok(Told { mark }),
            None => Err(NoMemory),
        }
    }

    /// Ends the feed. It waits for the readers that are reading. Afterwards `Reader::get` returns
    /// `Unread`; this is tested, and no clause says it.
    pub fn close<R: Wait>(self, rt: &R) {
        let Feed {
            end,
            count: _count,
            mark: _mark,
            stale: _,
        } = self;
        drop(end.take(rt));
    }

    // The batch of what a replica ran. If changes of a refused publish are left, a batch may be
    // among them.
    fn batch(&mut self, ran: &History) -> Result<Batch, NoMemory>
        requires { Extends ran.now self.old.list }
        ensures batch { IfOk result (λ b. b ≡ record { feed = self.old.feed; list = ran.now }) }
        ensures kept { self.new ≡ self.old }
    {
        if self.stale {
            self.renew()?;
        }
        match &self.mark {
            Some(mark) => Batch::of(&self.count, mark, ran),
            None => Err(NoMemory),
        }
    }

    // Commits the list again. So no batch that was made before can be committed any more.
    fn renew(&mut self) -> Result<(), NoMemory>
        ensures { self.new ≡ self.old }
    {
        let Some(mark) = &self.mark else {
            return Err(NoMemory);
        };
        self.mark = Batch::again(&self.count, mark)?.commit();
        Ok(())
    }
}

fn mark_of(image: &Image) -> Option<Mark>
    ensures { IfSome result (λ m. m ≡ image.now.goal) }
{
    match &image.mark {
        Some(mark) => Some(mark.copy()),
        None => None,
    }
}

// The writer of a feed that has published nothing, which knows its feed.
fn first_end<R: Wait>(
    rt: &R,
    alloc: Global,
    count: &Arc<Count, Global>,
    mark: &Mark,
    readers: u32,
) -> Result<FeedEnd, NoMemory>
    requires readers { (1 ≤ readers) × (readers ≤ 16) }
    requires count { arc_value count.now ≡ count_of mark.now.feed }
    requires empty { mark.now.list ≡ [] }
    ensures image { IfOk result (λ end. IsWhole (shown_of end.desk.shown.value)
        × (end.desk.shown.value.goal ≡ mark.now)) }
    ensures none_left { IfOk result (λ end. drop end.behind end.log.items ≡ []) }
    ensures sight { IfOk result (λ end. known (view end.desk.place) ≡ Some mark.now.feed) }
{
    let batch = Batch::again(count, mark)?;
    let first = Image::new(alloc, &batch, mark)?;
    let second = Image::new(alloc, &batch, mark)?;
    let end = FeedEnd::new(alloc, first, second, readers as usize)?;
    match show(end, rt) {
        (end, Ok(())) => Ok(end),
        (end, Err(_)) => {
            drop(end.take(rt));
            Err(NoMemory)
        }
    }
}

fn first_readers(
    alloc: Global,
    end: &mut FeedEnd,
    mark: &Mark,
    readers: u32,
) -> Result<Vec<Reader>, NoMemory>
    requires sight { known (view end.old.desk.place) ≡ Some mark.now.feed }
    requires empty { mark.now.list ≡ [] }
    ensures kept { (end.new.desk.shown ≡ end.old.desk.shown)
        × (drop end.new.behind end.new.log.items ≡ drop end.old.behind end.old.log.items) }
    ensures count { IfOk result (λ all. length all.items ≡ readers) }
    ensures new { IfOk result (λ all. All (λ r.
        (r.feed ≡ mark.now.feed) × (r.seen ≡ []) × (r.told ≡ [])) all.items) }
{
    let mut all = Vec::new(alloc);
    for _ in 0..readers {
        all.push(first_reader(end, mark)?)?;
    }
    Ok(all)
}

fn first_reader(end: &mut FeedEnd, mark: &Mark) -> Result<Reader, NoMemory>
    requires sight { known (view end.old.desk.place) ≡ Some mark.now.feed }
    requires empty { mark.now.list ≡ [] }
    ensures kept { (end.new.desk.shown ≡ end.old.desk.shown)
        × (drop end.new.behind end.new.log.items ≡ drop end.old.behind end.old.log.items) }
    ensures sight { view end.new.desk.place ≡ view end.old.desk.place }
    ensures new { IfOk result (λ r. r ≡ record { feed = mark.now.feed; seen = []; told = [] }) }
{
    let mut reader = end.factory().reader()?;
    reader.learn::<Telling>(end.tell::<Telling>());
    Ok(Reader::new(reader, mark))
}

// Appends the changes by which the image runs all of `ran` and represents it.
fn append(
    end: &mut FeedEnd,
    stale: bool,
    ran: &History,
    before: usize,
    batch: Batch,
) -> Result<(), NoMemory>
    requires fresh { stale ≡ false → drop end.old.behind end.old.log.items ≡ [] }
    requires whole { IsWhole (shown_of end.old.desk.shown.value) }
    requires more { Extends ran.now end.old.desk.shown.value.goal.list
        × (before ≡ length end.old.desk.shown.value.goal.list) }
    requires batch { batch ≡ record { feed = end.old.desk.shown.value.goal.feed; list = ran.now } }
    ensures desk { end.new.desk ≡ end.old.desk }
    ensures follows { OnOk result (MayFollow (shown_of end.old.desk.shown.value)
        (drop end.new.behind end.new.log.items)) }
    ensures goal { OnOk result ((fold changed (shown_of end.old.desk.shown.value)
        (drop end.new.behind end.new.log.items)).goal ≡ batch) }
{
    run_rest(end, stale, ran, before)?;
    put(end, Change::Reach(batch))
}

// Appends only the commands. If changes of a refused publish are left, the image starts again from
// nothing.
fn run_rest(end: &mut FeedEnd, stale: bool, ran: &History, before: usize) -> Result<(), NoMemory>
    requires fresh { stale ≡ false → drop end.old.behind end.old.log.items ≡ [] }
    requires more { Extends ran.now end.old.desk.shown.value.goal.list
        × (before ≡ length end.old.desk.shown.value.goal.list) }
    ensures desk { end.new.desk ≡ end.old.desk }
    ensures listed { OnOk result (listed end.old.desk.shown.value.goal.list
        (drop end.new.behind end.new.log.items) ≡ ran.now) }
{
    if stale {
        put(end, Change::Restart)?;
        run_from(end, ran, 0)
    } else {
        run_from(end, ran, before)
    }
}

fn run_from(end: &mut FeedEnd, ran: &History, from: usize) -> Result<(), NoMemory>
    requires { from ≤ length ran.now }
    ensures desk { end.new.desk ≡ end.old.desk }
    ensures appended { OnOk result (drop end.new.behind end.new.log.items
        ≡ drop end.old.behind end.old.log.items ++ map Run (drop from ran.now)) }
{
    for place in from..ran.len() {
        put(end, Change::Run(ran.at(place).copy()?))?;
    }
    Ok(())
}

fn put(end: &mut FeedEnd, change: Change) -> Result<(), NoMemory>
    ensures desk { end.new.desk ≡ end.old.desk }
    ensures appended { OnOk result (drop end.new.behind end.new.log.items
        ≡ drop end.old.behind end.old.log.items ++ change ∷ []) }
{
    match end.append(change) {
        Ok(()) => Ok(()),
        Err(_) => Err(NoMemory),
    }
}

// Publishes what was appended.
fn show<R: Wait>(end: FeedEnd, rt: &R) -> (FeedEnd, Result<(), AllocError>)
    requires { MayFollow (shown_of end.desk.shown.value) (drop end.behind end.log.items) }
    ensures shown { OnOk result.1 (shown_of result.0.desk.shown.value
        ≡ fold changed (shown_of end.desk.shown.value) (drop end.behind end.log.items)) }
    ensures none_left { OnOk result.1 (drop result.0.behind result.0.log.items ≡ []) }
    ensures sight { OnOk result.1 (view result.0.desk.place ≡ Some result.0.desk.shown.value.goal) }
    ensures unchanged { OnErr result.1 (result.0.desk.shown.value ≡ end.desk.shown.value) }
{
    end.publish_as::<Showing, R>(rt)
}
