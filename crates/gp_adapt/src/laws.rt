//! Laws of calls that ask for the next round, one after another. Each function does nothing, and
//! its contract is the law.
ghost use Rattle.std.specs.Prelude.{◌≡◌, ◌<◌, ◌≤◌, ◌+◌, ◌*◌, ◌++◌, ◌∷◌, ℕ, List};
ghost use Rattle.gp_round.specs.Counts.{Counts};
ghost use Rattle.gp_round.specs.declared.round.Mode.TheVariants.{Single};
ghost use Rattle.gp_round.specs.declared.round.Round.{Round};
ghost use Rattle.gp_msg.specs.Messages.{Stamped, Entry};
ghost use Rattle.gp_run.specs.Legal.{Legal};
ghost use Rattle.gp_collide.specs.Watched.{watched};
ghost use Rattle.gp_collide.specs.Clashes.{IsCalm};
ghost use Rattle.gp_adapt.specs.Courses.{opening};
ghost use Rattle.gp_adapt.specs.Calls.{Call, AreAnswered, NoneReturns, course_after, answers_in, clashes_in};
ghost use Rattle.gp_adapt.specs.Told.{AreSent, AreWatchedCalls};

/// The calls return at most one round, and two more for each collision.
pub fn few_rounds_are_answered()
    ensures { (calm : ℕ) (cs : List Call) → AreAnswered (opening calm) cs → answers_in cs ≤ 1 + 2 * clashes_in cs }
{}

/// A watch of a single round of any epoch that saw any messages of a legal run has noticed no
/// collision.
pub fn a_single_round_never_clashes()
    ensures { (config : Counts) → 0 < config.acceptors → (es : List Entry) → Legal config es → (e : ℕ) (r : Round) → r.mode ≡ Single
        → (ms : List Stamped) → AreSent es ms → IsCalm (watched (e, r) ms) }
{}

/// From any call after the first one on, at most two calls report a collision before a calm returns
/// the count of collisions to 0. Each call must report what a watch of the round last returned
/// says, and must have a count left.
pub fn two_clashes_at_most_come_before_a_return()
    ensures { (calm : ℕ) (first : Call) (xs ys : List Call) → AreWatchedCalls calm (first ∷ (xs ++ ys))
        → NoneReturns (course_after (opening calm) (first ∷ xs)) ys → clashes_in ys ≤ 2 }
{}
