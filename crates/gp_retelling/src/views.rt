//! The text of `views`: what `run` prints, followed by what readers of a key saw while nodes ran.
ghost use Rattle.std.specs.Prelude.{IfOk, OnOk};
ghost use Rattle.gp_run.specs.Learned.{learned_at};
ghost use Rattle.gp_run.specs.Legal.{Legal};
ghost use Rattle.gp_run.specs.Runs.{newest_first};
ghost use Rattle.gp_phase.specs.Beside.{topics};
ghost use Rattle.gp_onlookers.specs.Ends.{AreWatching, HasFailedNowhere, topic_of};
ghost use Rattle.gp_onlookers.specs.Looks.{AreSeen};
ghost use Rattle.gp_retelling.specs.Texts.{IsViewsText};

use crate::texts::run_text;
use crate::worlds::world_of;
use gp_command::{Key, NoMemory};
use gp_msg::Record;
use gp_onlookers::{Looks, Onlookers, close, last_looks, push_sight};
use gp_round::Config;
use std::alloc::Global;
use std::sync::Wait;

// What the onlookers saw of the key along what learner 0 learned according to these records.
fn looks_along<W: Wait>(
    rt: &W,
    alloc: Global,
    config: &Config,
    key: Key,
    records: &[Record],
    onlookers: Onlookers,
) -> Result<Looks, NoMemory>
    requires legal { Legal config.now (newest_first records.now) }
    requires watching { AreWatching key (topics (λ p. p.feed) topic_of onlookers) }
    ensures seen { IfOk result (λ looks. AreSeen key (learned_at config.now 0 (newest_first records.now))
        onlookers.first.looks onlookers.second.looks looks) }
    ensures whole { OnOk result (HasFailedNowhere onlookers.main onlookers.first onlookers.second) }
{
    let _learners = config.learners();
    match world_of(alloc, *config, records) {
        Ok(world) => last_looks(rt, alloc, key, onlookers, world.learned(0)),
        Err(none) => {
            close(rt, onlookers);
            Err(none)
        }
    }
}

/// What `run` prints for these records, followed by the order in which a replica ran what learner 0
/// learned, and by what each of the onlookers saw of the key at each look, the last time at the end
/// of that order. The records are a legal run of the configuration. The onlookers end, also after
/// an error. Returns `NoMemory` if memory runs out; if a catch-up, a publish or a look was refused
/// before; if what learner 0 learned does not extend what the replica ran; and if there are more
/// than 2^31 records.
pub fn views_text<W: Wait>(
    rt: &W,
    alloc: Global,
    config: &Config,
    key: Key,
    records: &[Record],
    onlookers: Onlookers,
) -> Result<Vec<u8>, NoMemory>
    requires legal { Legal config.now (newest_first records.now) }
    requires watching { AreWatching key (topics (λ p. p.feed) topic_of onlookers) }
    ensures text { IfOk result (λ text.
        IsViewsText key config.now records.now onlookers.first.looks onlookers.second.looks text.items) }
    ensures whole { OnOk result (HasFailedNowhere onlookers.main onlookers.first onlookers.second) }
{
    let looks = looks_along(rt, alloc, config, key, records, onlookers)?;
    let mut text = run_text(alloc, config, records)?;
    push_sight(&looks, &mut text)?;
    Ok(text)
}
