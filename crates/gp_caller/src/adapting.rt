//! The rounds of a run that adapts.
ghost use Rattle.std.specs.Prelude.{◌≡◌, ◌++◌, [], true, List, IfOk, IfSome, OnOk};
ghost use Rattle.std.specs.Option.{option_to_list};
ghost use Rattle.gp_round.specs.Configs.{is_owner};
ghost use Rattle.gp_msg.specs.declared.node.Node.TheVariants.{Coordinator};
ghost use Rattle.gp_msg.specs.declared.record.Record.{Record};
ghost use Rattle.gp_adapt.specs.Choices.{TakesScenes, AnswersModes};
ghost use Rattle.gp_adapt.specs.Courses.{opening};
ghost use Rattle.gp_caller.specs.Adapting.{IsAdapted, Follows, IsInCourse, IsOverLast, IsOneLook, in_course_prop, last_for, or_zero, course_at};
ghost use Rattle.gp_caller.specs.Sights.{Saw, saw_lasts};
ghost use Rattle.gp_caller.specs.declared.policy.TheConstants.{LEADER, CALM};

use crate::policy::{CALM, LEADER};
use crate::sight::Sight;
use crate::standing::standing;
use gp_adapt::{Adapt, ChooseMode};
use gp_cell::{Cell, PaxosRules};
use gp_command::NoMemory;
use gp_edge::Disk;
use gp_phase::{Call, Caller};
use gp_round::{Config, Round};
use gp_wire::Wire;
use std::alloc::Global;
use std::sync::Wait;

/// Calls the rounds of a run that adapts, for coordinator 0.
///
/// In each epoch that the coordinator enters, the first round is the fast round with count 1. A
/// watch over the round that was called last sees every message. After a collision in a fast round
/// the multi round above it is called, and after a collision in a multi round the single round
/// above it. If a round is not fast, and `CALM` looks have found no collision in it, the fast round
/// above it is called (Camargos, Schmidt, Pedone, *Multicoordinated Paxos*, 2007). That this fast
/// round is called then is tested, not proved.
///
/// Its invariants: the watch is over `round` of `epoch`; what `adapt` remembers fits the round that
/// was called last for the epoch; and `adapt` is that of coordinator 0, with a closure that returns
/// the mode for the number of collisions.
#[derive(Drop)]
pub struct AdaptiveCaller {
    alloc: Global,
    /// It decides when the next round begins, and which one.
    pub adapt: Adapt,
    epoch: u32,
    // the round that the watch is over
    round: Round,
    /// What its watch saw.
    pub sight: Sight,
    /// Its calls, the oldest first.
    pub calls: Vec<Call>,
    ghost watches: { sight.watch.round ≡ (epoch, round) },
    ghost remembers: { IsInCourse adapt.course (last_for epoch calls.items) } by { in_course_prop adapt.course (last_for epoch calls.items) },
    ghost leads: { adapt.coordinator ≡ LEADER },
    ghost modes: { adapt.by_clashes ≡ true },
}

impl AdaptiveCaller {
    /// A caller that has called no round and seen no message. The closure returns the mode of each
    /// round for the number of collisions before it. `NoMemory` if memory runs out.
    pub fn new(
        alloc: Global,
        config: Config,
        choose: ChooseMode,
    ) -> Result<AdaptiveCaller, NoMemory>
        requires callable { TakesScenes (ChooseMode.pre choose) }
        requires modes { AnswersModes (ChooseMode.post choose) }
        ensures config { IfOk result (λ c. c.adapt.config ≡ config) }
        ensures none { IfOk result (λ c. c.calls.items ≡ []) }
        ensures knows { IfOk result (λ c. (seen : List Record) → Saw c.sight seen) }
        ensures course { IfOk result (λ c. c.adapt.course ≡ opening CALM) }
    {
        let _coordinators = config.coordinators();
        let round = Round::zero();
        let sight = Sight::new(alloc, 0, round)?;
        Ok(AdaptiveCaller {
            alloc,
            adapt: Adapt::new_by_clashes(config, LEADER, CALM, choose),
            epoch: 0,
            round,
            sight,
            calls: Vec::new(alloc),
        })
    }

    // Makes the watch one over the round that was called last for this epoch, or over round zero if
    // none was.
    fn enter(&mut self, epoch: u32) -> Result<(), NoMemory>
        ensures rest { (self.new.adapt.config ≡ self.old.adapt.config) × (self.new.calls.items ≡ self.old.calls.items) }
        ensures over { OnOk result (self.new.sight.watch.round ≡ (epoch, or_zero (last_for epoch self.old.calls.items))) }
        ensures saw { (seen : List Record) → Saw self.old.sight seen → Saw self.new.sight seen }
        ensures course { OnOk result (self.new.adapt.course ≡ course_at self.old.sight.watch.round.0 epoch self.old.adapt.course) }
    {
        let last = last_for(epoch, &self.calls);
        if epoch != self.epoch {
            return self.change(epoch, last);
        }
        let round = last.unwrap_or(Round::zero());
        if round != self.round {
            self.sight = Sight::new(self.alloc, epoch, round)?;
            self.round = round;
        }
        Ok(())
    }

    // Starts anew in this epoch. A coordinator never comes back to an epoch that it left, so no
    // round was called for the epoch before. If one was, this is refused as if memory ran out.
    fn change(&mut self, epoch: u32, last: Option<Round>) -> Result<(), NoMemory>
        requires { last ≡ last_for epoch self.old.calls.items }
        ensures rest { (self.new.adapt.config ≡ self.old.adapt.config) × (self.new.calls.items ≡ self.old.calls.items) }
        ensures over { OnOk result (self.new.sight.watch.round ≡ (epoch, or_zero (last_for epoch self.old.calls.items))) }
        ensures saw { (seen : List Record) → Saw self.old.sight seen → Saw self.new.sight seen }
        ensures course { OnOk result (self.new.adapt.course ≡ opening self.old.adapt.course.calm) }
    {
        if last.is_some() {
            return Err(NoMemory);
        }
        let round = Round::zero();
        self.sight = Sight::new(self.alloc, epoch, round)?;
        self.adapt.reset();
        self.epoch = epoch;
        self.round = round;
        Ok(())
    }

    // The next call, given that the watch is over the round that was called last for its epoch.
    fn decide(&mut self) -> Result<Option<Call>, NoMemory>
        requires over { IsOverLast self.old.sight.watch self.old.calls.items }
        ensures rest { (self.new.adapt.config ≡ self.old.adapt.config) × (self.new.sight ≡ self.old.sight) }
        ensures calls { IfOk result (λ c. self.new.calls.items ≡ self.old.calls.items ++ option_to_list c) }
        ensures owned { IfOk result (λ c. IfSome c (λ x. is_owner self.old.adapt.config.coordinators LEADER x.round ≡ true)) }
        ensures call { IfOk result (Follows self.old.sight.watch self.old.calls.items) }
        ensures look { IfOk result (IsOneLook self.old.adapt.course self.old.sight.watch self.new.adapt.course) }
    {
        self.calls.reserve(1)?;
        let Some(round) = self.adapt.next(self.round, self.sight.clashed()) else {
            return Ok(None);
        };
        let call = Call {
            epoch: self.epoch,
            round,
        };
        self.calls.push_reserved(call);
        Ok(Some(call))
    }
}

// The round that was called last for an epoch.
fn last_for(epoch: u32, calls: &[Call]) -> Option<Round>
    ensures { result ≡ last_for epoch calls.now }
{
    let mut last = None;
    for call in calls {
        if call.epoch == epoch {
            last = Some(call.round);
        }
    }
    last
}

impl<D: Disk> Caller<Wire<PaxosRules>, Cell<D>> for AdaptiveCaller {
    ghost node = { λ c. Coordinator LEADER };

    ghost config = { λ c. c.adapt.config };

    ghost called = { λ c. c.calls.items };

    // Each look counts once, so `CALM` looks without a collision come before a fast round that is
    // called after a round that is not fast.
    ghost looks = { λ old new call. IsOneLook (course_at old.sight.watch.round.0 new.sight.watch.round.0 old.adapt.course) new.sight.watch new.adapt.course call };

    ghost answers = { λ config node calls seen call. IsAdapted config node calls seen call };

    ghost knows = { λ c seen. Saw c.sight seen };

    ghost lasts = { λ c seen more. saw_lasts c.sight seen more };

    fn next<W: Wait>(
        &mut self,
        rt: &W,
        net: &Wire<PaxosRules>,
        cell: &mut Cell<D>,
    ) -> Result<Option<Call>, NoMemory> {
        let (epoch, _own) = standing(cell, LEADER);
        self.enter(epoch)?;
        self.sight.look(rt, net, cell)?;
        self.decide()
    }
}
