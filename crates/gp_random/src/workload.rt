//! Workloads.
ghost use Rattle.std.specs.Prelude.{◌≡◌, ◌≤◌, ◌<◌, ◌+◌, IsNone, IfOk, OnOk, OnErr, IfSome, OnSome};
ghost use Rattle.gp_random.specs.Plans.{plan_of, next};
ghost use Rattle.gp_random.specs.Fitting.{IsFit, HasEnded, offers_in, events_left};

use crate::plan::Plan;
use gp_command::NoMemory;
use gp_msg::Event;
use std::alloc::Global;
use std::marker::Model;

/// The greatest number of commands that a workload has.
pub const MOST_COMMANDS: u32 = 256;

/// Commands, and a schedule that offers them, begins rounds, takes messages and makes nodes crash.
///
/// A contract sees a workload as the plan of what is left. Two generators of one seed draw
/// everything that the plan leaves open: stream 0 makes the commands, and stream 1 the schedule. So
/// the events are a function of the seed, the number of commands, and how many messages were sent
/// before each event.
#[derive(Drop)]
pub struct Workload {
    plan: Plan,
    alloc: Global,
}

impl Model for Workload {
    ghost use Rattle.gp_random.specs.declared.plan.Plan.{Plan};
    ghost use Rattle.gp_random.specs.Sound.{IsSound};

    ghost Value = { Plan };

    ghost view = { λ w. w.plan };

    ghost invariant = { λ w. IsSound w.plan };
}

impl Workload {
    /// The workload of a seed, with 1 to `MOST_COMMANDS` commands. `NoMemory` if memory runs out.
    pub fn new(alloc: Global, seed: u64, commands: u32) -> Result<Workload, NoMemory>
        requires some { 1 ≤ commands }
        requires few { commands ≤ 256 }
        ensures { IfOk result (λ w. w ≡ plan_of seed commands) }
    {
        Ok(Workload {
            plan: Plan::of(seed, commands),
            alloc,
        })
    }

    /// The next event if `have` messages were sent, or `None` if no turn of the schedule and no
    /// command is left. After that it stays `None`. If memory runs out, the workload is as before.
    ///
    /// The event fits a system of three acceptors, three coordinators and two learners with so many
    /// messages. There are at most nine events for each command.
    pub fn next(&mut self, have: u64) -> Result<Option<Event>, NoMemory>
        ensures event { IfOk result (λ event. event ≡ (next have self.old).0) }
        ensures next { OnOk result (self.new ≡ (next have self.old).1) }
        ensures unchanged { OnErr result (self.new ≡ self.old) }
        ensures fits { IfOk result (λ event. IfSome event (IsFit have)) }
        ensures offers { IfOk result (λ event. self.new.offered ≡ self.old.offered + offers_in event) }
        ensures ended { IfOk result (λ event. IsNone event → HasEnded self.new) }
        ensures nearer { IfOk result (λ event. OnSome event (events_left self.new < events_left self.old)) }
    {
        let mut ahead = self.plan.clone()?;
        let event = ahead.next(self.alloc, have)?;
        self.plan = ahead;
        Ok(event)
    }
}
