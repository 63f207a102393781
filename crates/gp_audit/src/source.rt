//! What a learner took, as the cause of the commands that it brought.
ghost use Rattle.std.specs.Prelude.{◌≡◌, ◌++◌, ◌<◌, ℕ, take, not, OnOk, OnErr};
ghost use Rattle.std.specs.List.{list_all};
ghost use Rattle.gp_history.specs.History.{has};
ghost use Rattle.gp_history.specs.Sequence.{history_of};
ghost use Rattle.gp_audit.specs.Noting.{new_proof, new_proofs};
ghost use Rattle.gp_audit.specs.Sources.{source_cause};

use crate::proof::{Cause, Proof};
use crate::quorums::first_in;
use gp_command::{Command, NoMemory};
use gp_history::Hist;
use gp_index::History;
use gp_round::Round;

/// What a learner took.
#[derive(Drop)]
pub enum Source {
    /// A vote of a round of its epoch. The quorums are those whose votes are all held then, each
    /// with the meet of its votes.
    Vote {
        epoch: u32,
        round: Round,
        quorums: Vec<(u8, History)>,
    },
    /// A Final of its epoch.
    Final {
        message: u64,
    },
}

impl Source {
    // The cause of a new command, if this source brought it.
    fn cause(&self, c: &Command) -> Option<Cause>
        ensures { result ≡ source_cause self.now c.now }
    {
        match self {
            Source::Vote {
                epoch,
                round,
                quorums,
            } => {
                let mask = first_in(quorums, c)?;
                Some(Cause::Quorum {
                    epoch: *epoch,
                    round: *round,
                    mask,
                })
            }
            Source::Final { message } => Some(Cause::Final { message: *message }),
        }
    }
}

/// Whether a history has a command that was not known.
pub fn has_new(learned: &History, known: &History) -> bool
    ensures { result ≡ not (list_all (has (history_of known.now)) learned.now) }
{
    for i in 0..learned.len() {
        if !known.has(learned.at(i)) {
            return true;
        }
    }
    false
}

/// Appends the proofs, at this record, of those learned commands that were not known and that the
/// source brought. If memory runs out, `proofs` may hold the first of them.
pub fn push_new(
    learned: &History,
    known: &History,
    at: u64,
    source: &Source,
    proofs: &mut Vec<Proof>,
) -> Result<(), NoMemory>
    ensures written { OnOk result (proofs.new.items ≡ proofs.old.items ++ new_proofs (history_of known.now) at (source_cause source.now) learned.now) }
    ensures begun { OnErr result ((n : ℕ) × (proofs.new.items
        ≡ proofs.old.items ++ take n (new_proofs (history_of known.now) at (source_cause source.now) learned.now))) }
{
    for i in 0..learned.len() {
        let c = learned.at(i);
        if let Some(proof) = new_proof(c, known, at, source) {
            proofs.push(proof)?;
        }
    }
    Ok(())
}

// The proof of a command, if it was not known and the source brought it.
fn new_proof(c: &Command, known: &History, at: u64, source: &Source) -> Option<Proof>
    ensures { result ≡ new_proof (history_of known.now) at (source_cause source.now) c.now }
{
    if known.has(c) {
        return None;
    }
    let cause = source.cause(c)?;
    Some(Proof {
        id: c.id(),
        at,
        cause,
    })
}
