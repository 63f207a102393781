//! What a worker needs of a node.
ghost use Rattle.std.specs.Prelude.{◌≡◌, ◌<◌, ◌^◌, true, false, [], ◌∷◌, length, slice_get, IfOk, IfErr, OnErr};
ghost use Rattle.std.specs.Option.{option_map};
ghost use Rattle.gp_msg.specs.Reads.{kind_of};
ghost use Rattle.gp_msg.specs.Records.{messages_in};
ghost use Rattle.gp_work.specs.Doing.{ProcessState, posted, have, Goes, Posted, HasRisen};
ghost use Rattle.gp_work.specs.Moves.{event_of, Fits, HasRoom};
ghost use Rattle.gp_work.specs.Causes.{FaultCauses, StepCause, RiseCause, Falls};

use crate::faults::{RiseFault, StepFault};
use crate::moves::Move;
use gp_edge::Gate;
use gp_msg::{MsgKind, Node};
use std::sync::Wait;

/// A node that runs beside others over a net that they share. It can look at what was sent, make a
/// step, and recover after its disk failed.
pub trait Process<N> {
    ghost state: { Self → ProcessState };

    /// It is a node of this net, and may post to it.
    ghost is_of: { Self → N → Type 0 };

    /// What faults mean at the node as it is now.
    ghost causes: { Self → FaultCauses };

    /// Which node it is.
    fn node(&self) -> Node
        ensures { result ≡ (state self.now).node };

    /// How many records it posted.
    fn posted(&self) -> u64
        ensures { result ≡ posted (state self.now) };

    /// How many records it has seen.
    fn seen(&self) -> u64
        ensures { result ≡ length (state self.now).list };

    /// The kind of message k, counted from 0, of the list that the node has seen at the end of this
    /// call, and `None` exactly if that list has no message k.
    fn kind<W: Wait>(&mut self, rt: &W, net: &N, k: u64) -> Option<MsgKind>
        requires { is_of self.old net.now }
        ensures own { is_of self.new net.now }
        ensures goes { Goes (state self.old) (state self.new) }
        ensures posts { Posted (state self.old) (state self.new) [] }
        ensures up { (state self.new).up ≡ (state self.old).up }
        ensures risen { HasRisen (state self.old).turn (state self.new).turn }
        ensures few { have (state self.new) < 2 ^ 64 }
        ensures answer { result ≡ option_map kind_of (slice_get (messages_in (state self.new).list) k) };

    /// Makes a move of a node that is up: posts exactly one record. If it is refused, it posts
    /// nothing. `turn` is for the gate. Of the number that it returns no clause here speaks; of a
    /// `Cell` it is how many messages there are then.
    fn step<W: Wait, G: Gate>(
        &mut self,
        rt: &W,
        net: &N,
        mv: Move,
        gate: &G,
        turn: u64,
    ) -> Result<u64, StepFault>
        requires own { is_of self.old net.now }
        requires up { (state self.old).up ≡ true }
        requires fits { Fits (state self.old).config (state self.old).node mv }
        requires room { HasRoom (posted (state self.old)) mv }
        ensures own { is_of self.new net.now }
        ensures goes { Goes (state self.old) (state self.new) }
        ensures posted { IfOk result (λ n. Posted (state self.old) (state self.new) (event_of (state self.old).node mv ∷ [])) }
        ensures up { IfOk result (λ n. (state self.new).up ≡ true) }
        ensures nothing { OnErr result (Posted (state self.old) (state self.new) []) }
        ensures cause { IfErr result (StepCause mv (state self.old) (state self.new) ((causes self.new).too_great (event_of (state self.old).node mv))) };

    /// Recovers a node that is down: posts exactly one record, of a crash (`Fall`). If it is
    /// refused, it posts nothing and stays down. Of the number that it returns no clause here speaks; of a `Cell`
    /// it is how many messages there are then.
    fn rise<W: Wait>(&mut self, rt: &W, net: &N) -> Result<u64, RiseFault>
        requires own { is_of self.old net.now }
        requires down { (state self.old).up ≡ false }
        ensures own { is_of self.new net.now }
        ensures goes { Goes (state self.old) (state self.new) }
        ensures posted { IfOk result (λ n. Falls (state self.old) (state self.new)) }
        ensures up { IfOk result (λ n. (state self.new).up ≡ true) }
        ensures down { OnErr result ((state self.new).up ≡ false) }
        ensures nothing { OnErr result (Posted (state self.old) (state self.new) []) }
        ensures cause { IfErr result (RiseCause (state self.old) (state self.new) (causes self.new).not_risen) };
}
