//! Laws of the protocol within one epoch, over command histories. Each function does nothing, and its
//! contract is the law.
//!
//! In each law `T` has the tables for `a` acceptors and `c` coordinators. A law whose proof uses
//! that quorums share a member has the premise that there is an acceptor.
ghost use Rattle.std.specs.Prelude.{◌<◌, ℕ, List};
ghost use Rattle.gp_round.specs.declared.round.Round.{Round};
ghost use Rattle.gp_round.specs.Quorums.{IsCoordinatorQuorum};
ghost use Rattle.gp_cstructs.specs.Loose.{Event, System, Fits, Loose, happens, run};
ghost use Rattle.gp_cstructs.specs.Facts.{Facts, IsVote, HadVote, ChoosesSafely, AreVotesCompatible, AreChosenCompatible};
ghost use Rattle.gp_cstructs.specs.Offered.{AllOffered};
ghost use Rattle.gp_cstructs.specs.ProposedOnce.{AreProposedOnce};
ghost use Rattle.gp_cstructs.specs.LooseAgreement.{AgreesLoosely};
ghost use Rattle.gp_cstructs.specs.Protocol.{protocol};
ghost use Rattle.gp_agreement.specs.Values.{Value, operations};

/// If all facts hold of a system, they hold of it after each event that may happen.
pub fn each_step_keeps_the_facts()
    ensures facts { (a c : ℕ) → 0 < a → let T = protocol operations a c in
        (w : System T) (e : Event T) → Facts T (IsCoordinatorQuorum c) w → Fits T w e → Facts T (IsCoordinatorQuorum c) (happens T w e) }
    ensures offered { (a c : ℕ) → let T = protocol operations a c in
        (w : System T) (e : Event T) → AllOffered T w → Fits T w e → AllOffered T (happens T w e) }
    ensures once { (a c : ℕ) → let T = protocol operations a c in
        (w : System T) (e : Event T) → AreProposedOnce T w → AreProposedOnce T (happens T w e) }
{}

/// All facts hold after a loose list of events.
pub fn loose_lists_have_the_facts()
    ensures facts { (a c : ℕ) → 0 < a → let T = protocol operations a c in
        (es : List (Event T)) → Loose T es → Facts T (IsCoordinatorQuorum c) (run T es) }
    ensures offered { (a c : ℕ) → let T = protocol operations a c in
        (es : List (Event T)) → Loose T es → AllOffered T (run T es) }
    ensures once { (a c : ℕ) → let T = protocol operations a c in
        (es : List (Event T)) → AreProposedOnce T (run T es) }
{}

/// The votes of which the facts speak are exactly those that an acceptor had at some moment of the
/// list.
pub fn votes_are_those_that_an_acceptor_had()
    ensures only { (a c : ℕ) → let T = protocol operations a c in
        (es : List (Event T)) (i : ℕ) (r : Round) (x : Value) → IsVote T (run T es).cast i r x → HadVote T es i r x }
    ensures all { (a c : ℕ) → 0 < a → let T = protocol operations a c in
        (es : List (Event T)) → Loose T es → (i : ℕ) (r : Round) (x : Value) → HadVote T es i r x → IsVote T (run T es).cast i r x }
{}

/// The choice from the answers of a quorum of phase 1 of a round is safe at that round.
pub fn the_safe_choice_is_safe()
    ensures { (a c : ℕ) → 0 < a → let T = protocol operations a c in
        (w : System T) → Facts T (IsCoordinatorQuorum c) w → ChoosesSafely T w }
{}

/// Votes of one round that is not fast are compatible.
pub fn votes_of_a_round_are_compatible()
    ensures { (a c : ℕ) → 0 < a → let T = protocol operations a c in
        (w : System T) → Facts T (IsCoordinatorQuorum c) w → AreVotesCompatible T w }
{}

/// Two chosen values, in any rounds, are compatible.
pub fn chosen_values_are_compatible()
    ensures { (a c : ℕ) → 0 < a → let T = protocol operations a c in
        (w : System T) → Facts T (IsCoordinatorQuorum c) w → AreChosenCompatible T w }
{}

/// What learners show in a loose list of events agrees.
pub fn loose_lists_agree()
    ensures { (a c : ℕ) → 0 < a → let T = protocol operations a c in
        (es : List (Event T)) → Loose T es → AgreesLoosely T es }
{}
