//! Why a line is not read.
use crate::reason::Reason;
use gp_command::NoMemory;

/// Why a line is not read.
#[derive(Clone, Copy, Debug, PartialEq, Eq)]
pub enum LineFault {
    /// The line is refused.
    Refused(Reason),
    /// Memory ran out.
    NoMemory,
}

impl From<Reason> for LineFault {
    ghost use Rattle.std.specs.Prelude.{◌≡◌};
    ghost use Rattle.gp_script.specs.declared.fault.LineFault.TheVariants.{Refused};

    ghost from_gives = { λ reason e. e ≡ Refused reason };

    fn from(reason: Reason) -> LineFault {
        LineFault::Refused(reason)
    }
}

impl From<NoMemory> for LineFault {
    ghost use Rattle.std.specs.Prelude.{◌≡◌};
    ghost use Rattle.gp_script.specs.declared.fault.LineFault.TheVariants as fault;

    ghost from_gives = { λ _ e. e ≡ fault.NoMemory };

    fn from(_refused: NoMemory) -> LineFault {
        LineFault::NoMemory
    }
}
