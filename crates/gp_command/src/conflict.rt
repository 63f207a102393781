//! The conflict relation of commands.
ghost use Rattle.std.specs.Prelude.{◌≡◌, ◌≢◌, ◌↔◌, IsTrue};
ghost use Rattle.std.specs.List.{list_any};
ghost use Rattle.gp_command.specs.Conflict.{conflict, is_clash, touches_clash};

use crate::command::Command;
use crate::touch::{Access, Touch};

/// Whether the two commands conflict: they differ, and one is a checkpoint or they share a key
/// whose two accesses are neither both reads nor both additions.
///
/// The relation is symmetric, and no command conflicts with itself (law
/// `conflicts_are_symmetric_and_irreflexive`). Generalized consensus leaves the choice of the
/// relation open (Lamport, *Generalized Consensus and Paxos*, 2005).
#[inline(always)]
pub fn conflicts(a: &Command, b: &Command) -> bool
    ensures { result ≡ conflict a.now b.now }
{
    if are_apart(a.draft().mark(), b.draft().mark()) {
        return false;
    }
    are_in_conflict(a, b)
}

// Whether the two commands conflict, tested as the definition says.
#[tactic(auto, unfolding(crate::specs::Conflict::conflict))]
fn are_in_conflict(a: &Command, b: &Command) -> bool
    ensures { result ≡ conflict a.now b.now }
{
    a != b
        && (a.draft().is_checkpoint()
            || b.draft().is_checkpoint()
            || foots_clash(a.draft().foot(), b.draft().foot()))
}

// Whether two marks show that the footprints do not clash.
fn are_apart(a: u64, b: u64) -> bool
    ensures { IsTrue result ↔ ((a ≢ 0) × (b ≢ 0) × (a ≢ b)) }
{
    a != 0 && b != 0 && a != b
}

fn foots_clash(a: &[Touch], b: &[Touch]) -> bool
    ensures { result ≡ list_any (λ t. list_any (touches_clash t) b.now) a.now }
{
    a.iter().any(|t| foot_clashes(t, b))
}

fn foot_clashes(t: &Touch, foot: &[Touch]) -> bool
    ensures { result ≡ list_any (touches_clash t.now) foot.now }
{
    foot.iter().any(|u| touches_clash(t, u))
}

fn touches_clash(t: &Touch, u: &Touch) -> bool
    ensures { result ≡ touches_clash t.now u.now }
{
    t.key == u.key && is_clash(t.access, u.access)
}

fn is_clash(a: Access, b: Access) -> bool
    ensures { result ≡ is_clash a b }
{
    !matches!(
        (a, b),
        (Access::Read, Access::Read) | (Access::Add, Access::Add)
    )
}
