//! What agrees in a legal run. Each function does nothing, and its contract is the law.
ghost use Rattle.std.specs.Prelude.{◌≡◌, ◌<◌, ◌≤◌, ◌++◌, ℕ, List, slice_get, length, Some};
ghost use Rattle.gp_history.specs.History.{History, IsHistory};
ghost use Rattle.gp_history.specs.Bounds.{IsCompatible};
ghost use Rattle.gp_round.specs.Counts.{Counts};
ghost use Rattle.gp_round.specs.declared.round.Round.{Round};
ghost use Rattle.gp_msg.specs.Messages.{Stamped, Entry};
ghost use Rattle.gp_run.specs.Messages.{messages};
ghost use Rattle.gp_run.specs.States.{coordinator_at, acceptor_at, learner_at};
ghost use Rattle.gp_run.specs.Legal.{Legal};
ghost use Rattle.gp_run.specs.Agreement.{Agrees};
ghost use Rattle.gp_run.specs.Chosen.{IsChosen};
ghost use Rattle.gp_cstructs.specs.CStructs.{Laws};
ghost use Rattle.gp_agreement.specs.Values.{operations};
ghost use Rattle.gp_agreement.specs.Facts.{Facts};
ghost use Rattle.gp_agreement.specs.Epochs.{leads_to};

/// Command histories have all laws of c-structs.
pub fn command_histories_are_c_structs()
    ensures { Laws operations }
{}

/// What learners show in a legal run agrees, over all its epochs.
pub fn every_legal_run_agrees()
    ensures { (config : Counts) → 0 < config.acceptors → (es : List Entry) → Legal config es → Agrees config es }
{}

/// Two histories that are chosen in one epoch of a legal run, in any rounds, are compatible.
pub fn chosen_values_agree()
    ensures { (config : Counts) → 0 < config.acceptors → (es : List Entry) → Legal config es → (e : ℕ) (r j : Round) (x y : History)
        → IsHistory x → IsHistory y → IsChosen config es x e r → IsChosen config es y e j → IsCompatible x y }
{}

/// All facts hold after a legal run.
pub fn every_legal_run_has_the_facts()
    ensures { (config : Counts) → 0 < config.acceptors → (es : List Entry) → Legal config es → Facts config es }
{}

/// No epoch is greater than the number of entries: neither that of a node, nor one to which a
/// message takes a node.
pub fn epochs_are_at_most_the_entries()
    ensures coordinators { (config : Counts) (es : List Entry) → Legal config es
        → (c : ℕ) → (coordinator_at config c es).epoch ≤ length es }
    ensures acceptors { (config : Counts) (es : List Entry) → Legal config es
        → (a : ℕ) → (acceptor_at config a es).epoch ≤ length es }
    ensures learners { (config : Counts) (es : List Entry) → Legal config es
        → (l : ℕ) → (learner_at config l es).epoch ≤ length es }
    ensures messages { (config : Counts) (es : List Entry) → Legal config es
        → (k : ℕ) (m : Stamped) → slice_get (messages es) k ≡ Some m → leads_to m ≤ length es }
{}

/// A coordinator or an acceptor never returns to an earlier epoch, not even by a crash.
pub fn durable_epochs_grow()
    ensures coordinators { (config : Counts) (c : ℕ) (later earlier : List Entry)
        → (coordinator_at config c earlier).epoch ≤ (coordinator_at config c (later ++ earlier)).epoch }
    ensures acceptors { (config : Counts) (a : ℕ) (later earlier : List Entry)
        → (acceptor_at config a earlier).epoch ≤ (acceptor_at config a (later ++ earlier)).epoch }
{}
