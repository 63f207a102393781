//! Messages between nodes.
ghost use Rattle.std.specs.Prelude.{◌≡◌, IfOk};
ghost use Rattle.gp_msg.specs.Reads.{kind_of};

use gp_command::{Command, NoMemory};
use gp_history::Hist;
use gp_index::History;
use gp_round::Round;

/// A message that a node sends. It has no address: every node may take it, any number of times or
/// never. A proposal belongs to no epoch, and every other message to one.
#[derive(Drop, Debug)]
pub enum Msg {
    /// A proposer offers a command.
    Propose {
        command: Command,
    },
    /// A coordinator asks the acceptors to join a round: phase 1 begins.
    P1a {
        epoch: u32,
        round: Round,
    },
    /// An acceptor joins a round, and answers with the last round of the epoch in which it voted,
    /// and its vote there.
    P1b {
        epoch: u32,
        round: Round,
        acceptor: u32,
        voted: Round,
        vote: History,
    },
    /// A coordinator asks the acceptors of a round to vote for a value: phase 2.
    P2a {
        epoch: u32,
        round: Round,
        coordinator: u32,
        value: History,
    },
    /// An acceptor votes in a round.
    P2b {
        epoch: u32,
        round: Round,
        acceptor: u32,
        vote: History,
    },
    /// A learner closes an epoch with the value that it learned there, up to the first checkpoint.
    Final {
        epoch: u32,
        learner: u32,
        value: History,
    },
}

/// The kind of a message.
#[derive(Clone, Copy, Debug, PartialEq, Eq)]
pub enum MsgKind {
    Propose,
    P1a,
    P1b,
    P2a,
    P2b,
    Final,
}

impl Msg {
    /// The kind of the message.
    pub fn kind(&self) -> MsgKind
        ensures { result ≡ kind_of self.now }
    {
        match self {
            Msg::Propose { .. } => MsgKind::Propose,
            Msg::P1a { .. } => MsgKind::P1a,
            Msg::P1b { .. } => MsgKind::P1b,
            Msg::P2a { .. } => MsgKind::P2a,
            Msg::P2b { .. } => MsgKind::P2b,
            Msg::Final { .. } => MsgKind::Final,
        }
    }

    /// An equal message. `NoMemory` if memory runs out.
    pub fn copy(&self) -> Result<Msg, NoMemory>
        ensures { IfOk result (λ copy. copy ≡ self.now) }
    {
        match self {
            Msg::Propose { command } => Ok(Msg::Propose {
                command: command.copy()?,
            }),
            Msg::P1a { epoch, round } => Ok(Msg::P1a {
                epoch: *epoch,
                round: *round,
            }),
            Msg::P1b {
                epoch,
                round,
                acceptor,
                voted,
                vote,
            } => Ok(Msg::P1b {
                epoch: *epoch,
                round: *round,
                acceptor: *acceptor,
                voted: *voted,
                vote: vote.copy()?,
            }),
            Msg::P2a {
                epoch,
                round,
                coordinator,
                value,
            } => Ok(Msg::P2a {
                epoch: *epoch,
                round: *round,
                coordinator: *coordinator,
                value: value.copy()?,
            }),
            Msg::P2b {
                epoch,
                round,
                acceptor,
                vote,
            } => Ok(Msg::P2b {
                epoch: *epoch,
                round: *round,
                acceptor: *acceptor,
                vote: vote.copy()?,
            }),
            Msg::Final {
                epoch,
                learner,
                value,
            } => Ok(Msg::Final {
                epoch: *epoch,
                learner: *learner,
                value: value.copy()?,
            }),
        }
    }
}

impl From<Msg> for NoMemory {
    fn from(_refused: Msg) -> NoMemory {
        NoMemory
    }
}
