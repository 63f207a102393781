//! Why a line of a file of cases is not run.
use gp_command::{DraftRefused, NoMemory};
use gp_history::Unpushed;
use gp_store::OpFault;
use std::alloc::{AllocError, AllocFailed};

/// Why a line of a file of cases is not run.
#[derive(Clone, Copy, Debug, PartialEq, Eq)]
pub enum Fault {
    /// The line is not spelled as its first word wants it, its first word is unknown, or it is out
    /// of place.
    Unread,
    /// Memory ran out.
    NoMemory,
}

impl From<NoMemory> for Fault {
    fn from(_refused: NoMemory) -> Fault {
        Fault::NoMemory
    }
}

impl From<AllocError> for Fault {
    fn from(_refused: AllocError) -> Fault {
        Fault::NoMemory
    }
}

impl<T: Drop> From<AllocFailed<T>> for Fault {
    fn from(_refused: AllocFailed<T>) -> Fault {
        Fault::NoMemory
    }
}

impl From<Unpushed> for Fault {
    fn from(_refused: Unpushed) -> Fault {
        Fault::NoMemory
    }
}

impl From<OpFault> for Fault {
    fn from(_refused: OpFault) -> Fault {
        Fault::Unread
    }
}

impl From<DraftRefused> for Fault {
    fn from(refused: DraftRefused) -> Fault {
        match refused {
            DraftRefused::NoMemory => Fault::NoMemory,
            _ => Fault::Unread,
        }
    }
}
