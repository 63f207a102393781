//! A world as a stage.
ghost use Rattle.gp_driver.specs.Worlds.{stage_of};

use crate::stage::{Stage, StageFault};
use gp_msg::{Event, MsgKind};
use gp_round::Config;
use gp_world::World;
use std::sync::Wait;

/// A world is always ready. It has no disks and no logs, so its steps fail only if memory runs out.
impl Stage for World {
    ghost state = { stage_of };

    fn config(&self) -> &Config {
        World::config(self)
    }

    fn top_count(&self) -> u32 {
        World::top_count(self)
    }

    fn messages(&self) -> u64 {
        World::messages(self)
    }

    fn kind<W: Wait>(&mut self, _rt: &W, k: u64) -> Option<MsgKind> {
        match self.message(k) {
            Some(message) => Some(message.kind()),
            None => None,
        }
    }

    // an event that fits is refused only if memory runs out
    fn step<W: Wait>(&mut self, _rt: &W, event: Event) -> Result<u64, StageFault> {
        match World::step(self, event) {
            Ok(messages) => Ok(messages),
            Err(_) => Err(StageFault::NoMemory),
        }
    }
}
