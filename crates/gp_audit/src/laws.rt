//! Laws of certificates. Each function does nothing, and its contract is the law.
ghost use Rattle.std.specs.Prelude.{◌≡◌, ◌<◌, ℕ, List};
ghost use Rattle.gp_command.specs.declared.command.Command.{Command};
ghost use Rattle.gp_round.specs.Counts.{Counts};
ghost use Rattle.gp_msg.specs.Messages.{Entry};
ghost use Rattle.gp_run.specs.Legal.{Legal};
ghost use Rattle.gp_audit.specs.declared.proof.Proof.{Proof};
ghost use Rattle.gp_audit.specs.Certificates.{IsProof};

/// A command of a learner has at most one certificate: a legal run determines its record and its
/// cause.
pub fn a_certificate_is_the_only_one()
    ensures { (config : Counts) → 0 < config.acceptors → (es : List Entry) → Legal config es → (l : ℕ) (c : Command) (p q : Proof)
        → IsProof config es l c p → IsProof config es l c q → p ≡ q }
{}
