//! Configurations: how many nodes there are, and what a quorum of them is.
ghost use Rattle.std.specs.Prelude.{◌≡◌, ◌≤◌, Some, None, IfOk, IfErr, OnOk};
ghost use Rattle.gp_round.specs.Configs.{counts, bad_count, quorum_size, majority, coordinator_quorum_size, is_owner};

use crate::round::{Mode, Round, lead_of};
use std::marker::Model;

/// The greatest count of a round that a coordinator may begin.
pub const LAST_COUNT: u32 = 1_000_000;

/// A kind of node that a configuration counts.
#[derive(Clone, Copy, Debug, PartialEq, Eq)]
pub enum Which {
    Acceptors,
    Coordinators,
    Learners,
}

/// The first number of nodes that is out of range. A configuration has 3 to 7 acceptors, 1 to 5
/// coordinators and 1 to 4 learners.
#[derive(Clone, Copy, Debug, PartialEq, Eq)]
pub struct BadCount {
    pub which: Which,
    pub given: u32,
}

/// How many acceptors, coordinators and learners there are. Nodes of a kind are numbered from 0.
#[derive(Clone, Copy, Debug, PartialEq, Eq)]
pub struct Config {
    acceptors: u32,
    coordinators: u32,
    learners: u32,
}

impl Model for Config {
    ghost use Rattle.std.specs.Prelude.{◌≡◌, None};
    ghost use Rattle.gp_round.specs.Counts.{Counts};
    ghost use Rattle.gp_round.specs.Ranges.{AreInRange};

    ghost Value = { Counts };

    ghost view = { λ c. record { acceptors = c.acceptors; coordinators = c.coordinators; learners = c.learners } };

    ghost invariant = { λ c. AreInRange c.acceptors c.coordinators c.learners };

    ghost inverse = { λ n. record { acceptors = n.acceptors; coordinators = n.coordinators; learners = n.learners } };
}

impl Config {
    /// The configuration with these numbers of nodes. `BadCount` if one of them is out of range.
    pub fn new(acceptors: u32, coordinators: u32, learners: u32) -> Result<Config, BadCount>
        ensures made { IfOk result (λ config. config ≡ counts acceptors coordinators learners) }
        ensures accepted { OnOk result (bad_count acceptors coordinators learners ≡ None) }
        ensures refused { IfErr result (λ bad. bad_count acceptors coordinators learners ≡ Some bad) }
    {
        let refused = |which, given| Err(BadCount { which, given });
        if !(3..=7).contains(&acceptors) {
            return refused(Which::Acceptors, acceptors);
        }
        if !(1..=5).contains(&coordinators) {
            return refused(Which::Coordinators, coordinators);
        }
        if !(1..=4).contains(&learners) {
            return refused(Which::Learners, learners);
        }
        Ok(Config {
            acceptors,
            coordinators,
            learners,
        })
    }

    /// How many acceptors there are, 3 to 7.
    pub fn acceptors(&self) -> u32
        ensures value { result ≡ self.now.acceptors }
        ensures least { 3 ≤ result }
        ensures most { result ≤ 7 }
    {
        self.acceptors
    }

    /// How many coordinators there are, 1 to 5.
    pub fn coordinators(&self) -> u32
        ensures value { result ≡ self.now.coordinators }
        ensures least { 1 ≤ result }
        ensures most { result ≤ 5 }
    {
        self.coordinators
    }

    /// How many learners there are, 1 to 4.
    pub fn learners(&self) -> u32
        ensures value { result ≡ self.now.learners }
        ensures least { 1 ≤ result }
        ensures most { result ≤ 4 }
    {
        self.learners
    }

    /// The least size of a quorum of acceptors in a round of this mode: more than half of them, and
    /// in a fast round three quarters, rounded up.
    pub fn quorum(&self, mode: Mode) -> u32
        ensures value { result ≡ quorum_size self.now.acceptors mode }
        ensures most { result ≤ self.now.acceptors }
    {
        match mode {
            Mode::Single | Mode::Multi => self.acceptors / 2 + 1,
            Mode::Fast => (3 * self.acceptors).div_ceil(4),
        }
    }

    /// The least size of a quorum of phase 1: more than half of the acceptors.
    pub fn first_quorum(&self) -> u32
        ensures value { result ≡ majority self.now.acceptors }
        ensures most { result ≤ self.now.acceptors }
    {
        self.acceptors / 2 + 1
    }

    /// The least size of a quorum of coordinators: more than half of them in a multi round, and
    /// otherwise 1, for the coordinator that leads.
    pub fn coordinator_quorum(&self, mode: Mode) -> u32
        ensures value { result ≡ coordinator_quorum_size self.now.coordinators mode }
        ensures most { result ≤ self.now.coordinators }
    {
        match mode {
            Mode::Single | Mode::Fast => 1,
            Mode::Multi => self.coordinators / 2 + 1,
        }
    }

    /// Whether a coordinator may begin a round: it is one of the configuration, the count is 1 to
    /// `LAST_COUNT`, and the lead is the coordinator, or 0 in a multi round, which every
    /// coordinator owns.
    pub fn owns(&self, coordinator: u32, round: Round) -> bool
        ensures { result ≡ is_owner self.now.coordinators coordinator round }
    {
        (1..=LAST_COUNT).contains(&round.count)
            && coordinator < self.coordinators
            && round.lead == lead_of(round.mode, coordinator)
    }
}
