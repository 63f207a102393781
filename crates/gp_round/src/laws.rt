//! Laws of rounds, quorums and subsets. Each function does nothing, and its contract is the law.
ghost use Rattle.std.specs.Prelude.{◌≡◌, ◌<◌, ◌^◌, ◌↔◌, ℕ, Bool, true};
ghost use Rattle.std.specs.List.{Contains};
ghost use Rattle.std.specs.List.Sorted.{IsStrictlyIncreasing};
ghost use Rattle.gp_round.specs.declared.round.Mode.{Mode};
ghost use Rattle.gp_round.specs.declared.round.Mode.TheVariants.{Fast};
ghost use Rattle.gp_round.specs.declared.round.Round.{Round};
ghost use Rattle.gp_round.specs.Configs.{is_owner};
ghost use Rattle.gp_round.specs.Quorums.{IsQuorum, IsFirstQuorum, IsCoordinatorQuorum, Shared, SharedByThree};
ghost use Rattle.gp_round.specs.Rounds.{earlier, round_zero};
ghost use Rattle.gp_round.specs.Sets.{bit, members, masks};

/// Round zero is before every round that a coordinator may begin.
pub fn round_zero_is_before_all_that_are_begun()
    ensures { (n c : ℕ) (r : Round) → is_owner n c r ≡ true → earlier round_zero r ≡ true }
{}

/// Any two quorums of acceptors of one round share an acceptor.
pub fn two_quorums_of_a_round_meet()
    ensures { (n : ℕ) (mode : Mode) (p q : ℕ → Bool) → 0 < n → IsQuorum n mode p → IsQuorum n mode q → Shared n p q }
{}

/// A quorum of any round and a quorum of phase 1 share an acceptor.
pub fn a_quorum_meets_each_quorum_of_the_first_phase()
    ensures { (n : ℕ) (mode : Mode) (p q : ℕ → Bool) → IsQuorum n mode p → IsFirstQuorum n q → Shared n p q }
{}

/// Two quorums of a fast round and a quorum of phase 1 share an acceptor.
pub fn two_fast_quorums_and_one_of_the_first_phase_meet()
    ensures { (n : ℕ) (p q s : ℕ → Bool) → IsQuorum n Fast p → IsQuorum n Fast q → IsFirstQuorum n s → SharedByThree n p q s }
{}

/// Any two quorums of coordinators of a round share a coordinator.
pub fn two_coordinator_quorums_meet()
    ensures { (n : ℕ) (r : Round) (p q : ℕ → Bool) → IsCoordinatorQuorum n r p → IsCoordinatorQuorum n r q → Shared n p q }
{}

/// `masks n size` are exactly the masks below 2^n with `size` members, in ascending order and so
/// without duplicates.
pub fn each_subset_stands_once_in_ascending_order()
    ensures all { (n size mask : ℕ) → Contains (masks n size) mask ↔ ((mask < 2 ^ n) × (members (bit mask) n ≡ size)) }
    ensures ascending { (n size : ℕ) → IsStrictlyIncreasing (masks n size) }
{}
