//! The result of an audit.
ghost use Rattle.std.specs.Prelude.{◌≡◌};
ghost use Rattle.gp_verdict.specs.Answers.{unaudited_of};

use gp_command::NoMemory;
use gp_msg::Records;
use gp_script::Reason;
use gp_text::Unplayed;
use gp_world::World;

/// The result of an audit of an upheld input: the world after the events of its trace, and the text
/// with its certificates.
#[derive(Drop)]
pub struct Audited {
    pub world: World,
    pub text: Vec<u8>,
}

/// Why an input is not upheld.
#[derive(Drop)]
pub enum Unaudited {
    /// `line`, counted from 1, is the first line that is refused, for `reason`. `records` are those
    /// of the events in the trace before that line.
    Bad {
        line: u64,
        reason: Reason,
        records: Records,
    },
    /// Memory ran out.
    NoMemory,
}

impl From<Unplayed> for Unaudited {
    ghost from_gives = { λ refused e. e ≡ unaudited_of refused };

    fn from(refused: Unplayed) -> Unaudited {
        match refused {
            Unplayed::NoMemory => Unaudited::NoMemory,
            Unplayed::Bad {
                line,
                reason,
                records,
            } => Unaudited::Bad {
                line,
                reason,
                records,
            },
        }
    }
}

impl From<NoMemory> for Unaudited {
    ghost use Rattle.gp_verdict.specs.declared.answer.Unaudited.TheVariants as unaudited;

    ghost from_gives = { λ _ e. e ≡ unaudited.NoMemory };

    fn from(_refused: NoMemory) -> Unaudited {
        Unaudited::NoMemory
    }
}
