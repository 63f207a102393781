//! Rounds and their order.
ghost use Rattle.std.specs.Prelude.{◌≡◌};
ghost use Rattle.gp_round.specs.Configs.{lead_of, round_of};
ghost use Rattle.gp_round.specs.Rounds.{is_fast, round_zero};

use std::cmp::Ordering;

/// How a round is coordinated.
///
/// In a single round one coordinator sends values, as in Paxos. In a multi round quorums of
/// coordinators do (Camargos, Schmidt, Pedone, *Multicoordinated Paxos*, 2007). In a fast round the
/// acceptors also take proposals themselves (Lamport, *Generalized Consensus and Paxos*, 2005).
#[derive(Clone, Copy, Debug, PartialEq, Eq, PartialOrd, Ord)]
pub enum Mode {
    Single,
    Multi,
    Fast,
}

impl Mode {
    /// Whether acceptors take proposals themselves in rounds of this mode.
    pub fn is_fast(self) -> bool
        ensures { result ≡ is_fast self }
    {
        matches!(self, Mode::Fast)
    }
}

/// A ballot round. Rounds are ordered by count, then mode, then lead.
///
/// A round that a coordinator may begin has a count from 1 to `LAST_COUNT`. The lead is the
/// coordinator of a single or fast round, and 0 in a multi round.
#[derive(Clone, Copy, Debug)]
pub struct Round {
    pub count: u32,
    pub mode: Mode,
    pub lead: u32,
}

impl Round {
    /// The round of this count and mode for this coordinator. Its lead is the coordinator, or 0 in
    /// a multi round.
    pub fn of(coordinator: u32, count: u32, mode: Mode) -> Round
        ensures { result ≡ round_of coordinator count mode }
    {
        Round {
            count,
            mode,
            lead: lead_of(mode, coordinator),
        }
    }

    /// Round zero, before all rounds that a coordinator may begin. Acceptors start with a vote for
    /// the empty history in it.
    pub fn zero() -> Round
        ensures { result ≡ round_zero }
    {
        Round {
            count: 0,
            mode: Mode::Single,
            lead: 0,
        }
    }
}

// The lead of a round of this mode that the coordinator begins.
pub(crate) fn lead_of(mode: Mode, coordinator: u32) -> u32
    ensures { result ≡ lead_of mode coordinator }
{
    match mode {
        Mode::Single | Mode::Fast => coordinator,
        Mode::Multi => 0,
    }
}

impl PartialEq for Round {
    ghost use Rattle.std.specs.Cmp.{partial_equiv_from_equiv, eq_by_cmp_equiv};
    ghost use Rattle.gp_round.specs.Rounds.{same_round, round_cmp_total};

    ghost eq = { same_round };

    ghost laws = { partial_equiv_from_equiv (eq_by_cmp_equiv round_cmp_total) };

    fn eq(&self, other: &Round) -> bool {
        self.cmp(other).is_eq()
    }
}

impl Eq for Round {
    ghost use Rattle.std.specs.Cmp.{eq_by_cmp_equiv};
    ghost use Rattle.gp_round.specs.Rounds.{round_cmp_total};

    ghost laws = { eq_by_cmp_equiv round_cmp_total };
}

impl PartialOrd for Round {
    ghost use Rattle.std.specs.Cmp.{partial_order_from_total};
    ghost use Rattle.std.specs.Ordering.{as_partial_cmp};
    ghost use Rattle.gp_round.specs.Rounds.{round_cmp, round_cmp_total};

    ghost partial_cmp = { as_partial_cmp round_cmp };

    ghost laws = { partial_order_from_total round_cmp_total };

    fn partial_cmp(&self, other: &Round) -> Option<Ordering> {
        Some(self.cmp(other))
    }
}

impl Ord for Round {
    ghost use Rattle.std.specs.Prelude.{refl};
    ghost use Rattle.gp_round.specs.Rounds.{round_cmp, round_cmp_total};

    ghost cmp = { round_cmp };

    ghost total = { round_cmp_total };

    ghost matches_partial_cmp = { λ x y. refl };

    ghost matches_eq = { λ x y. refl };

    fn cmp(&self, other: &Round) -> Ordering {
        self.count
            .cmp(&other.count)
            .then((self.mode as u8).cmp(&(other.mode as u8)))
            .then(self.lead.cmp(&other.lead))
    }
}
