//! Which round a run begins next.
ghost use Rattle.std.specs.Prelude.{◌≡◌, ◌<◌, ℕ, true, IfSome};
ghost use Rattle.gp_round.specs.Configs.{is_owner};
ghost use Rattle.gp_caller.specs.Rounds.{next_round};
ghost use Rattle.gp_adapt.specs.Choices.{mode_after};

use gp_adapt::Scene;
use gp_round::{LAST_COUNT, Mode, Round};

/// The coordinator that begins the rounds of a run.
pub const LEADER: u32 = 0;

/// The first round of an epoch.
pub const FIRST_ROUND: Round = Round {
    count: 1,
    mode: Mode::Multi,
    lead: 0,
};

/// The first round of an epoch in a run that adapts.
pub const FIRST_FAST_ROUND: Round = Round {
    count: 1,
    mode: Mode::Fast,
    lead: LEADER,
};

/// After this many looks without a collision, a run that adapts comes back to fast rounds. That it
/// comes back then is tested, not proved.
pub const CALM: u32 = 2;

/// The mode of the next round of a run that adapts: fast if there was no collision, multi after
/// one, and single after more.
pub fn mode_after(scene: &Scene) -> Mode
    ensures { result ≡ mode_after scene.now.clashes }
{
    match scene.clashes {
        0 => Mode::Fast,
        1 => Mode::Multi,
        _ => Mode::Single,
    }
}

/// The round above the highest one that the leader begins, if it begins one: a multi round if it
/// has begun none in its epoch, and its single round if it has begun one, which has collided. There
/// is no third round in an epoch, and none above the last count.
pub fn next_round(highest: Round, clashed: bool, begun: u32) -> Option<Round>
    ensures answer { result ≡ next_round highest clashed begun }
    ensures owned { (coordinators : ℕ) → 0 < coordinators → IfSome result (λ r. is_owner coordinators LEADER r ≡ true) }
{
    if highest.count >= LAST_COUNT {
        return None;
    }
    let count = highest.count + 1;
    match begun {
        0 => Some(Round::of(LEADER, count, Mode::Multi)),
        1 if clashed => Some(Round::of(LEADER, count, Mode::Single)),
        _ => None,
    }
}
