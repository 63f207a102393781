//! Laws of workloads. Each function is there for its contract, which is the law.
ghost use Rattle.std.specs.Prelude.{◌≡◌, ◌<◌, ℕ, None};
ghost use Rattle.rand_chacha.specs.ChaCha.{ChaCha};
ghost use Rattle.gp_random.specs.declared.plan.Plan.{Plan};
ghost use Rattle.gp_random.specs.Draws.{draw};
ghost use Rattle.gp_random.specs.Plans.{next};
ghost use Rattle.gp_random.specs.Fitting.{HasEnded};

/// A workload that has ended has no more events, however many messages were sent.
pub fn a_workload_stays_at_its_end()
    ensures { (have : ℕ) (p : Plan) → HasEnded p → next have p ≡ (None, p) }
{}
