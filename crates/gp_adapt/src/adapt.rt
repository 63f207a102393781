//! Rounds that adapt to collisions.
ghost use Rattle.std.specs.Prelude.{◌≡◌, ◌<◌, ◌≤◌, ◌+◌, ◌&&◌, true, nat_lt, IfSome};
ghost use Rattle.std.specs.Option.{is_some};
ghost use Rattle.gp_round.specs.Configs.{is_owner, lead_of};
ghost use Rattle.gp_round.specs.Rounds.{earlier};
ghost use Rattle.gp_adapt.specs.Choices.{TakesScenes, AnswersSingleRounds, AnswersMode, AnswersModes, mode_after};
ghost use Rattle.gp_adapt.specs.Courses.{opening, moved, begins};
ghost use Rattle.gp_adapt.specs.Calls.{IsAnswered};

use crate::course::Course;
use crate::scene::Scene;
use gp_round::{Config, LAST_COUNT, Mode, Round};

/// The greatest number of calls without a collision that can make a calm.
pub const MOST_CALM: u32 = 1_000;

/// A closure that says in which mode the next round begins.
pub type ChooseMode = Box<dyn Fn(&Scene) -> Mode>;

/// Says when a coordinator begins a round, and which one. It begins a round at its first call,
/// after each collision, and after a calm if there were collisions before. A calm is a fixed number
/// of calls in a row without a collision.
///
/// It keeps a closure and four facts: the coordinator is one of the configuration; the closure may
/// be called on every scene; it returns `Single` after two or more collisions; and if `by_clashes`
/// is true, the number of collisions alone decides the mode that it returns. In a single round all
/// values are compatible, so no collision is possible.
#[derive(Drop)]
pub struct Adapt {
    pub config: Config,
    pub coordinator: u32,
    pub choose: ChooseMode,
    /// What it remembers of its calls.
    pub course: Course,
    /// Whether the closure is known to return a fast, a multi or a single round by the number of
    /// collisions alone. This changes no result.
    pub by_clashes: bool,
    pub ghost known: { coordinator < config.coordinators },
    pub ghost callable: { TakesScenes (ChooseMode.pre choose) },
    pub ghost single: { AnswersSingleRounds (ChooseMode.post choose) },
    pub ghost modes: { by_clashes ≡ true → AnswersModes (ChooseMode.post choose) },
}

impl Adapt {
    /// The rounds of a coordinator in a configuration, in the modes that the closure returns,
    /// before the first call. `calm` is the number of calls without a collision that make a calm,
    /// from 1 to `MOST_CALM`.
    pub fn new(config: Config, coordinator: u32, calm: u32, choose: ChooseMode) -> Adapt
        requires known { coordinator < config.coordinators }
        requires some_calm { 1 ≤ calm }
        requires most_calm { calm ≤ MOST_CALM }
        requires callable { TakesScenes (ChooseMode.pre choose) }
        requires single { AnswersSingleRounds (ChooseMode.post choose) }
        ensures config { result.config ≡ config }
        ensures coordinator { result.coordinator ≡ coordinator }
        ensures choose { result.choose ≡ choose }
        ensures course { result.course ≡ opening calm }
    {
        Adapt {
            config,
            coordinator,
            choose,
            course: Course::new(calm),
            by_clashes: false,
        }
    }

    /// As `new`, for a closure that returns a fast round after no collision, a multi round after
    /// one, and a single round after more.
    pub fn new_by_clashes(config: Config, coordinator: u32, calm: u32, choose: ChooseMode) -> Adapt
        requires known { coordinator < config.coordinators }
        requires some_calm { 1 ≤ calm }
        requires most_calm { calm ≤ MOST_CALM }
        requires callable { TakesScenes (ChooseMode.pre choose) }
        requires modes { AnswersModes (ChooseMode.post choose) }
        ensures config { result.config ≡ config }
        ensures coordinator { result.coordinator ≡ coordinator }
        ensures choose { result.choose ≡ choose }
        ensures course { result.course ≡ opening calm }
        ensures by_clashes { result.by_clashes ≡ true }
    {
        Adapt {
            config,
            coordinator,
            choose,
            course: Course::new(calm),
            by_clashes: true,
        }
    }

    /// Returns to the state before the first call.
    pub fn reset(&mut self)
        ensures course { self.new.course ≡ opening self.old.course.calm }
        ensures config { self.new.config ≡ self.old.config }
        ensures coordinator { self.new.coordinator ≡ self.old.coordinator }
        ensures choose { self.new.choose ≡ self.old.choose }
        ensures by_clashes { self.new.by_clashes ≡ self.old.by_clashes }
    {
        self.course.reset();
    }

    /// The round that the coordinator begins next, if it begins one. Its count is one above that of
    /// `highest`, and its mode is what the closure returns. `clashed` says whether there was a
    /// collision in the round that was begun last.
    ///
    /// The result is `None` if this call begins no round, or if the count of `highest` is
    /// `LAST_COUNT` or more. What is remembered is updated in either case.
    pub fn next(&mut self, highest: Round, clashed: bool) -> Option<Round>
        ensures course { self.new.course ≡ moved self.old.course clashed }
        ensures config { self.new.config ≡ self.old.config }
        ensures coordinator { self.new.coordinator ≡ self.old.coordinator }
        ensures choose { self.new.choose ≡ self.old.choose }
        ensures by_clashes { self.new.by_clashes ≡ self.old.by_clashes }
        ensures when { is_some result ≡ (begins self.old.course clashed && nat_lt highest.count LAST_COUNT) }
        ensures count { IfSome result (λ r. r.count ≡ highest.count + 1) }
        ensures mode { IfSome result (λ r. AnswersMode (ChooseMode.post self.old.choose) self.new.course r.mode) }
        ensures after { self.old.by_clashes ≡ true → IfSome result (λ r. r.mode ≡ mode_after self.new.course.clashes) }
        ensures lead { IfSome result (λ r. r.lead ≡ lead_of r.mode self.old.coordinator) }
        ensures owned { IfSome result (λ r. is_owner self.old.config.coordinators self.old.coordinator r ≡ true) }
        ensures greater { IfSome result (λ r. earlier highest r ≡ true) }
        ensures answered { IsAnswered self.old.course (record { highest = highest; clashed = clashed; answer = result }) }
    {
        if !self.course.advance(clashed) || highest.count >= LAST_COUNT {
            return None;
        }
        let mode = (self.choose)(&self.course.scene());
        Some(Round::of(self.coordinator, highest.count + 1, mode))
    }
}
