//! What is left of a workload, and its next event.
ghost use Rattle.std.specs.Prelude.{◌≡◌, ◌≤◌, ◌<◌, ◌+◌, Some, IfOk};
ghost use Rattle.gp_random.specs.Plans.{plan_of, node_numbered, mode_numbered, offers, begins, falls, interrupts, takes, turn, next};
ghost use Rattle.gp_random.specs.Sound.{IsSound};

use crate::commands::offer_at;
use crate::draws::{draw, stream_of};
use gp_command::NoMemory;
use gp_msg::{Event, Node};
use gp_round::{Mode, Round};
use rand_chacha::ChaCha20Rng;
use std::alloc::Global;

/// How many nodes take messages and crash: three acceptors, three coordinators and two learners.
const NODES: u32 = 8;

/// How many coordinators begin rounds.
const COORDINATORS: u32 = 3;

/// A message that is taken is among the last ones that were sent, at most this many.
const LAST_MESSAGES: u64 = 32;

/// How many turns the schedule has for each command.
const TURNS: u32 = 8;

/// What is left of a workload.
#[derive(Clone, Drop)]
pub struct Plan {
    /// The generator of the commands.
    pub commands: ChaCha20Rng,
    /// The generator of the schedule.
    pub schedule: ChaCha20Rng,
    /// How many commands there are in total.
    pub size: u32,
    /// How many commands were offered.
    pub offered: u32,
    /// The greatest count of a round that was begun, and 0 if there is none.
    pub top_count: u32,
    /// How many turns of the schedule are left.
    pub turns: u32,
}

impl Plan {
    pub(crate) fn of(seed: u64, commands: u32) -> Plan
        requires { commands ≤ 256 }
        ensures { result ≡ plan_of seed commands }
    {
        Plan {
            commands: stream_of(seed, 0),
            schedule: stream_of(seed, 1),
            size: commands,
            offered: 0,
            top_count: 0,
            turns: TURNS * commands,
        }
    }

    // The next event if `have` messages were sent, or `None` if there is none.
    pub(crate) fn next(&mut self, alloc: Global, have: u64) -> Result<Option<Event>, NoMemory>
        requires { IsSound self.old }
        ensures { IfOk result (λ event. (event, self.new) ≡ next have self.old) }
    {
        while self.turns > 0 {
            if let Some(event) = self.turn(alloc, have)? {
                return Ok(Some(event));
            }
        }
        self.offer(alloc)
    }

    fn turn(&mut self, alloc: Global, have: u64) -> Result<Option<Event>, NoMemory>
        requires some { 0 < self.old.turns }
        requires few { self.old.top_count + self.old.turns ≤ 2048 }
        ensures { IfOk result (λ event. (event, self.new) ≡ turn have self.old) }
    {
        self.turns -= 1;
        match draw(&mut self.schedule, 8) {
            0 | 1 => self.offer(alloc),
            2 => Ok(self.interrupt()),
            _ => Ok(self.take(have)),
        }
    }

    // Offers the next command, if one is left.
    fn offer(&mut self, alloc: Global) -> Result<Option<Event>, NoMemory>
        ensures { IfOk result (λ event. (event, self.new) ≡ offers self.old) }
    {
        if self.offered >= self.size {
            return Ok(None);
        }
        self.offered += 1;
        let event = offer_at(alloc, self.offered, &mut self.commands)?;
        Ok(Some(event))
    }

    fn interrupt(&mut self) -> Option<Event>
        requires { self.old.top_count < 2048 }
        ensures { (result, self.new) ≡ interrupts self.old }
    {
        match draw(&mut self.schedule, 16) {
            0 => Some(self.begin()),
            1 => Some(self.fall()),
            _ => None,
        }
    }

    fn begin(&mut self) -> Event
        requires { self.old.top_count < 2048 }
        ensures { (Some result, self.new) ≡ begins self.old }
    {
        let coordinator = draw(&mut self.schedule, COORDINATORS);
        let mode = mode_numbered(draw(&mut self.schedule, 3));
        self.top_count += 1;
        let round = Round::of(coordinator, self.top_count, mode);
        Event::Begin { coordinator, round }
    }

    fn fall(&mut self) -> Event
        ensures { (Some result, self.new) ≡ falls self.old }
    {
        let node = node_numbered(draw(&mut self.schedule, NODES));
        Event::Fall { node, kept: None }
    }

    // A node takes one of the last messages, if any was sent.
    fn take(&mut self, have: u64) -> Option<Event>
        ensures { (result, self.new) ≡ takes have self.old }
    {
        let node = node_numbered(draw(&mut self.schedule, NODES));
        if have == 0 {
            return None;
        }
        let back = draw(&mut self.schedule, have.min(LAST_MESSAGES) as u32);
        let message = have - 1 - u64::from(back);
        Some(Event::Take { node, message })
    }
}

// The nodes by one number: three acceptors, three coordinators and two learners.
fn node_numbered(number: u32) -> Node
    ensures { result ≡ node_numbered number }
{
    match number {
        0..=2 => Node::Acceptor(number),
        3..=5 => Node::Coordinator(number - 3),
        _ => Node::Learner(number - 6),
    }
}

fn mode_numbered(number: u32) -> Mode
    ensures { result ≡ mode_numbered number }
{
    match number {
        0 => Mode::Single,
        1 => Mode::Multi,
        _ => Mode::Fast,
    }
}
