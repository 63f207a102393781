//! What scripts and reports need of a machine.
ghost use Rattle.std.specs.Prelude.{◌≡◌, ◌++◌, OnOk, OnErr};
ghost use Rattle.std.specs.FinMap.{entries};
ghost use Rattle.gp_words.specs.Beginnings.{AppendsBeginning};
ghost use Rattle.gp_words.specs.Tokens.{texts};
ghost use Rattle.gp_service.specs.Profiles.{Profile, IsProfileOf};
ghost use Rattle.gp_service.specs.Answers.{Answers};

use gp_command::{Draft, Key, NoMemory};
use gp_replica::{Machine, Replica};
use gp_store::OpFault;
use std::alloc::Global;
use std::collections::BTreeMap;

/// Why words make no draft.
#[derive(Clone, Copy, Debug, PartialEq, Eq)]
pub enum Unsaid {
    /// No operation has this name and this number of words.
    NoOperation,
    /// A word in the place of a key is not a key, or one in the place of a number is not a number
    /// in range.
    Fault(OpFault),
    /// Memory ran out.
    NoMemory,
}

/// A machine whose operations are spelled in words, and whose state is shown as pairs.
///
/// An operation has one spelling, which is the body of its draft.
pub trait Service: Machine {
    /// What words mean, what the machine does, and what reports show of it.
    ghost profile: { Profile Self };

    /// The draft of the operation that the words spell. They are read from left to right, and the
    /// first fault is returned.
    fn draft(alloc: Global, words: &[&[u8]]) -> Result<Draft, Unsaid>
        ensures { Answers (profile.language (texts words.now)) result };

    /// The keys of the state with their values, in ascending order of the keys.
    fn pairs(&self) -> &BTreeMap<Key, u64>
        ensures { result.now.entries ≡ entries (profile.pairs self.now) };

    /// Appends the lines that a report has after the replies of a learner with this replica. If
    /// memory runs out, `to` may hold the beginning of them.
    fn push_totals(learner: u32, replica: &Replica<Self>, to: &mut Vec<u8>) -> Result<(), NoMemory>
        ensures written { OnOk result (to.new.items ≡ to.old.items ++ profile.totals learner replica.now) }
        ensures begun { OnErr result (AppendsBeginning to.old.items to.new.items (profile.totals learner replica.now)) };

    /// The rules of the profile are the machine's, and an operation has one spelling.
    ghost known: { IsProfileOf Self.rules profile };
}
