//! What survives a crash.
ghost use Rattle.std.specs.Prelude.{◌≡◌, IfOk};

use gp_command::NoMemory;
use gp_history::Hist;
use gp_index::History;
use gp_round::Round;

/// The part of a node's state that survives a crash. Learners and proposers have none.
#[derive(Drop, Debug)]
pub enum Durable {
    /// The epoch of an acceptor, its round, the round of its last vote in that epoch, and that
    /// vote.
    Acceptor {
        epoch: u32,
        round: Round,
        voted: Round,
        vote: History,
    },
    /// The epoch of a coordinator, and its round there.
    Coordinator {
        epoch: u32,
        round: Round,
    },
}

impl Durable {
    /// An equal durable part. `NoMemory` if memory runs out.
    pub fn copy(&self) -> Result<Durable, NoMemory>
        ensures { IfOk result (λ copy. copy ≡ self.now) }
    {
        match self {
            Durable::Acceptor {
                epoch,
                round,
                voted,
                vote,
            } => Ok(Durable::Acceptor {
                epoch: *epoch,
                round: *round,
                voted: *voted,
                vote: vote.copy()?,
            }),
            Durable::Coordinator { epoch, round } => Ok(Durable::Coordinator {
                epoch: *epoch,
                round: *round,
            }),
        }
    }
}
