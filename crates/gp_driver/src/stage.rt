//! The stage that a driver drives, and the faults of its steps.
ghost use Rattle.std.specs.Prelude.{◌≡◌, ◌<◌, ◌≤◌, ◌∷◌, ◌^◌, true, false, length, slice_get, IfOk, IfErr, OnOk, OnErr};
ghost use Rattle.std.specs.Option.{option_map};
ghost use Rattle.gp_round.specs.Ranges.{AreInRange};
ghost use Rattle.gp_run.specs.Messages.{messages};
ghost use Rattle.gp_run.specs.Legal.{fits};
ghost use Rattle.gp_msg.specs.Nodes.{node_of};
ghost use Rattle.gp_run.specs.Runs.{entry_after};
ghost use Rattle.gp_run.specs.TopCount.{top_count};
ghost use Rattle.gp_driver.specs.Kinds.{kind_of};
ghost use Rattle.gp_driver.specs.Stages.{is_fall, fault_counts, AllBut, Anyone, FailsByNode, HasCause, NodesGo};

use gp_msg::{Event, MsgKind};
use gp_round::Config;
use std::sync::Wait;

/// Why a step was not made.
#[derive(Clone, Copy, Debug, PartialEq, Eq)]
pub enum StageFault {
    /// Memory ran out.
    NoMemory,
    /// The disk of a node failed.
    Disk,
    /// An entry of `need` bytes does not fit under the limit of a node's log, whose size without
    /// entries is `size` bytes.
    Full { size: u64, need: u64 },
}

/// All nodes of a configuration, with the run that they made. A driver makes its steps, one after
/// another. A step may fail, and a stage counts how often a disk failed or a log was full. The
/// count ends at 2^64 - 1. A stage may list its nodes. The listed nodes keep their order, and the
/// count of faults of each of their disks never decreases. No count changes but for a fault that
/// is returned.
pub trait Stage {
    ghost use Rattle.gp_driver.specs.Stages.{StageState};

    ghost state: { Self → StageState };

    /// The configuration.
    fn config(&self) -> &Config
        ensures { result.now ≡ (state self.now).config };

    /// The greatest count of a round in a message or a node, and 0 if there is none.
    fn top_count(&self) -> u32
        ensures { result ≡ top_count (state self.now).config (state self.now).run };

    /// The number of messages that were sent.
    fn messages(&self) -> u64
        ensures { result ≡ length (messages (state self.now).run) };

    /// The kind of message k, numbered from 0, or `None` if there is no such message. The
    /// configuration, the run, all counts of faults and the events of each listed node stay as they
    /// were. A stage that was ready stays ready.
    fn kind<W: Wait>(&mut self, rt: &W, k: u64) -> Option<MsgKind>
        ensures kind { result ≡ option_map kind_of (slice_get (messages (state self.old).run) k) }
        ensures config { (state self.new).config ≡ (state self.old).config }
        ensures run { (state self.new).run ≡ (state self.old).run }
        ensures steady { (state self.new).faults ≡ (state self.old).faults }
        ensures nodes { NodesGo Anyone (state self.old).nodes (state self.new).nodes }
        ensures counts { fault_counts (state self.new).nodes ≡ fault_counts (state self.old).nodes }
        ensures ready { (state self.old).is_ready → (state self.new).is_ready };

    /// Executes an event that fits and is not a crash. One entry is added to the run, and the
    /// result is the number of messages after it. All listed nodes but that of the event keep their
    /// events. After an error the run, the configuration and the events of each listed node are as
    /// before, but the stage may no longer be ready.
    ///
    /// `NoMemory` means that memory ran out. `Disk` and `Full` are returned only if the count of
    /// faults has risen or is 2^64 - 1: for `Full` it has risen by one. `Disk` is a fault of the
    /// disk of a listed node, and the numbers of `Full` are too great for the event. After any
    /// other result the count is unchanged. After any result but `Disk` the counts of the disks of
    /// the listed nodes are unchanged.
    fn step<W: Wait>(&mut self, rt: &W, event: Event) -> Result<u64, StageFault>
        requires ready { (state self.old).is_ready }
        requires room { length (state self.old).run < 2 ^ 31 }
        requires no_fall { is_fall event ≡ false }
        requires fits { fits (state self.old).config (state self.old).run event ≡ true }
        ensures entry { IfOk result (λ _. (state self.new).run
            ≡ entry_after (state self.old).config (state self.old).run event ∷ (state self.old).run) }
        ensures count { IfOk result (λ n. n ≡ length (messages (state self.new).run)) }
        ensures ready { IfOk result (λ _. (state self.new).is_ready) }
        ensures unchanged { OnErr result ((state self.new).run ≡ (state self.old).run) }
        ensures config { (state self.new).config ≡ (state self.old).config }
        ensures later { (state self.old).faults ≤ (state self.new).faults }
        ensures steady { OnOk result ((state self.new).faults ≡ (state self.old).faults) }
        ensures nodes { NodesGo (AllBut (node_of event)) (state self.old).nodes (state self.new).nodes }
        ensures idle { OnErr result (NodesGo Anyone (state self.old).nodes (state self.new).nodes) }
        ensures failed { FailsByNode (state self.old).nodes (state self.new).nodes result }
        ensures cause { IfErr result (HasCause (state self.old).faults (state self.new).faults
            ((state self.new).is_too_great event)) };
}

/// The configuration, whose numbers are in range.
pub fn config_of<S: Stage>(stage: &S) -> Config
    ensures same { result ≡ (S.state stage.now).config }
    ensures range { AreInRange result.acceptors result.coordinators result.learners }
{
    let config = *stage.config();
    let _counts = (config.acceptors(), config.coordinators(), config.learners());
    config
}
