//! The rounds of a run.
ghost use Rattle.std.specs.Prelude.{◌≡◌, ◌↔◌, ◌++◌, ◌<◌, [], ◌^◌, true, List, length, IsTrue, IfOk, IfSome, OnOk, OnErr};
ghost use Rattle.std.specs.Option.{option_to_list};
ghost use Rattle.gp_round.specs.Configs.{is_owner};
ghost use Rattle.gp_msg.specs.declared.node.Node.TheVariants.{Coordinator};
ghost use Rattle.gp_msg.specs.declared.record.Record.{Record};
ghost use Rattle.gp_caller.specs.Calling.{IsCalled, Decides, called_for, highest_for, entered, new_caller};
ghost use Rattle.gp_caller.specs.Sights.{Saw, saw_lasts};

use crate::policy::{FIRST_ROUND, LEADER, next_round};
use crate::sight::Sight;
use crate::standing::standing;
use gp_cell::{Cell, PaxosRules};
use gp_command::NoMemory;
use gp_edge::Disk;
use gp_phase::{Call, Caller};
use gp_round::{Config, Round};
use gp_wire::Wire;
use std::alloc::Global;
use std::marker::Model;
use std::sync::Wait;

// After this many calls every further look is refused as if memory ran out.
const MOST_CALLS: usize = 4_294_967_295;

/// Calls the rounds of a run for coordinator 0.
///
/// In each epoch that the coordinator enters, the first round is the multi round with count 1. A
/// watch over that round sees every message. After a collision in it the single round above the
/// coordinator's own round is called, and no further round in that epoch (Camargos, Schmidt,
/// Pedone, *Multicoordinated Paxos*, 2007). After 2^32 - 1 calls each further look is refused with
/// `NoMemory`.
///
/// A contract sees the configuration, the calls, and what the watch saw.
#[derive(Drop)]
pub struct RoundCaller {
    alloc: Global,
    config: Config,
    epoch: u32,
    sight: Sight,
    calls: Vec<Call>,
}

impl Model for RoundCaller {
    ghost use Rattle.std.specs.Prelude.{◌≡◌};
    ghost use Rattle.gp_caller.specs.declared.policy.TheConstants.{FIRST_ROUND};
    ghost use Rattle.gp_caller.specs.Calling.{CallerState};
    ghost use Rattle.gp_caller.specs.Codes.{caller_code};

    ghost Value = { CallerState };

    ghost coded = { caller_code };

    ghost view = { λ c. record { config = c.config; calls = c.calls.items; sight = c.sight } };

    ghost invariant = { λ c. c.sight.watch.round ≡ (c.epoch, FIRST_ROUND) };
}

impl RoundCaller {
    /// A caller that has called no round and seen no message. `NoMemory` if memory runs out.
    pub fn new(alloc: Global, config: Config) -> Result<RoundCaller, NoMemory>
        ensures made { IfOk result (λ c. c ≡ new_caller config) }
        ensures knows { IfOk result (λ c. (seen : List Record) → Saw c.sight seen) }
    {
        let sight = Sight::new(alloc, 0, FIRST_ROUND)?;
        Ok(RoundCaller {
            alloc,
            config,
            epoch: 0,
            sight,
            calls: Vec::new(alloc),
        })
    }

    /// Its calls, the oldest first.
    pub fn calls(&self) -> &[Call]
        ensures { result.now ≡ self.now.calls }
    {
        &self.calls
    }

    // Makes the watch one over the first round of this epoch.
    fn enter(&mut self, epoch: u32) -> Result<(), NoMemory>
        ensures rest { (self.new.config ≡ self.old.config) × (self.new.calls ≡ self.old.calls) }
        ensures entered { OnOk result (self.new.sight ≡ entered self.old.sight epoch) }
        ensures unchanged { OnErr result (self.new.sight ≡ self.old.sight) }
    {
        if epoch != self.epoch {
            self.sight = Sight::new(self.alloc, epoch, FIRST_ROUND)?;
            self.epoch = epoch;
        }
        Ok(())
    }

    // The next call. `own` is the coordinator's round in the epoch of the watch.
    fn decide(&mut self, own: Round) -> Result<Option<Call>, NoMemory>
        requires few { length self.old.calls < 2 ^ 32 }
        ensures rest { (self.new.config ≡ self.old.config) × (self.new.sight ≡ self.old.sight) }
        ensures calls { IfOk result (λ c. self.new.calls ≡ self.old.calls ++ option_to_list c) }
        ensures owned { IfOk result (λ c. IfSome c (λ x. is_owner self.old.config.coordinators LEADER x.round ≡ true)) }
        ensures call { IfOk result (Decides self.old own) }
    {
        let _coordinators = self.config.coordinators();
        let begun = called_for(self.epoch, &self.calls);
        let highest = if begun == 0 { Round::zero() } else { own };
        let Some(round) = next_round(highest, self.sight.clashed(), begun) else {
            return Ok(None);
        };
        let call = Call {
            epoch: self.epoch,
            round,
        };
        self.calls.push(call)?;
        Ok(Some(call))
    }
}

// How many rounds were called for an epoch.
fn called_for(epoch: u32, calls: &[Call]) -> u32
    requires { length calls.now < 2 ^ 32 }
    ensures { result ≡ called_for epoch calls.now }
{
    let mut count = 0;
    for i in (0..calls.len()).rev() {
        if calls[i].epoch == epoch {
            count += 1;
        }
    }
    count
}

impl<D: Disk> Caller<Wire<PaxosRules>, Cell<D>> for RoundCaller {
    ghost use Rattle.gp_caller.specs.declared.policy.TheConstants.{LEADER};

    ghost node = { λ c. Coordinator LEADER };

    ghost config = { λ c. c.config };

    ghost called = { λ c. c.calls };

    ghost looks = { λ old new call. Unit {0} };

    ghost answers = { λ config node calls seen call. IsCalled config node calls seen call };

    ghost knows = { λ c seen. Saw c.sight seen };

    ghost lasts = { λ c seen more. saw_lasts c.sight seen more };

    fn next<W: Wait>(
        &mut self,
        rt: &W,
        net: &Wire<PaxosRules>,
        cell: &mut Cell<D>,
    ) -> Result<Option<Call>, NoMemory> {
        if self.calls.len() >= MOST_CALLS {
            return Err(NoMemory);
        }
        let (epoch, own) = standing(cell, LEADER);
        self.enter(epoch)?;
        self.sight.look(rt, net, cell)?;
        self.decide(own)
    }
}
