//! A policy that answers a collision with a single round.
ghost use Rattle.std.specs.Prelude.{◌≡◌, true, IfSome};
ghost use Rattle.gp_round.specs.Configs.{is_owner};
ghost use Rattle.gp_round.specs.Rounds.{earlier};

use gp_collide::{Choose, Notice, Policy};
use gp_round::{Config, Mode, Round};
use std::test::Fail;

const LAST_COUNT: u32 = 1_000_000;

const FAST_1: Round = Round {
    count: 1,
    mode: Mode::Fast,
    lead: 0,
};

const SINGLE_2: Round = Round {
    count: 2,
    mode: Mode::Single,
    lead: 0,
};

const SINGLE_BEFORE_LAST: Round = Round {
    count: LAST_COUNT - 1,
    mode: Mode::Single,
    lead: 0,
};

const SINGLE_LAST: Round = Round {
    count: LAST_COUNT,
    mode: Mode::Single,
    lead: 0,
};

// The highest round, whether it has collided, and the round that is to begin next.
type Case = (Round, bool, Option<Round>);

static CASES: [Case; 5] = [
    (FAST_1, true, Some(SINGLE_2)),
    (FAST_1, false, None),
    (SINGLE_BEFORE_LAST, true, Some(SINGLE_LAST)),
    (SINGLE_LAST, true, None),
    (SINGLE_LAST, false, None),
];

#[test]
fn a_single_round_follows_a_clash(rt: HostRuntime) -> Result<(), Fail> {
    let choose: Choose = Box::new(
        rt.alloc(),
        |n: &Notice| -> Option<Round>
            requires { n.now.coordinator ≡ 0 }
            ensures owned { IfSome result (λ r. is_owner 1 0 r ≡ true) }
            ensures greater { IfSome result (λ r. earlier n.now.highest r ≡ true) }
        {
            if n.clashed && n.highest.count < LAST_COUNT {
                Some(Round {
                    count: n.highest.count + 1,
                    mode: Mode::Single,
                    lead: n.coordinator,
                })
            } else {
                None
            }
        },
    )?;
    let policy = Policy::new(Config::new(3, 1, 1)?, 0, choose);
    assert!(rt; follows_all(&policy));
    Ok(())
}

fn follows_all(policy: &Policy) -> bool {
    for case in &CASES {
        if !follows(policy, *case) {
            return false;
        }
    }
    true
}

// Whether this round is to begin next.
fn follows(policy: &Policy, case: Case) -> bool {
    let (highest, clashed, next) = case;
    let notice = Notice {
        coordinator: policy.coordinator,
        highest,
        clashed,
        begun: 1,
    };
    policy.next(&notice) == next
}
