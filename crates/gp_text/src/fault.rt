//! Why the world refuses what a line says.
ghost use Rattle.std.specs.Prelude.{◌≡◌};
ghost use Rattle.gp_text.specs.Playing.{fault_of};

use gp_script::{LineFault, Reason};
use gp_world::StepRefused;

/// The fault of a line whose event the world refuses.
pub fn fault_of(refused: StepRefused) -> LineFault
    ensures { result ≡ fault_of refused }
{
    match refused {
        StepRefused::BadNode { node: _ } => LineFault::Refused(Reason::NoNode),
        StepRefused::BadFall { node: _ } => LineFault::Refused(Reason::BadFall),
        StepRefused::BadRound { round: _ } => LineFault::Refused(Reason::BadCount),
        StepRefused::NoMessage { asked: _, have: _ } => LineFault::Refused(Reason::NoMessage),
        StepRefused::NoMemory => LineFault::NoMemory,
    }
}
