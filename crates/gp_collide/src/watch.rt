//! The watch over the values of a round.
ghost use Rattle.std.specs.Prelude.{◌≡◌, ◌≢◌, ◌↔◌, IsTrue, false, All, Any, MatchBool, IfOk, OnOk, OnErr, position};
ghost use Rattle.gp_history.specs.Bounds.{IsCompatible};
ghost use Rattle.gp_history.specs.Sequence.{history_of};
ghost use Rattle.gp_msg.specs.Messages.{message_of};
ghost use Rattle.gp_collide.specs.Watched.{same_epoch_round, opening, after_message, values_with};
ghost use Rattle.gp_msg.specs.Nodes.{same_node};
ghost use Rattle.gp_collide.specs.Clashes.{HasClash, IsCalm};

use gp_bounds::compatible;
use gp_command::NoMemory;
use gp_history::Hist;
use gp_index::History;
use gp_msg::{Msg, Node};
use gp_round::Round;
use std::alloc::Global;
use std::marker::Model;

/// A watch over the values that coordinators send and acceptors vote for in one round of one epoch.
///
/// Of each sender the watch keeps one value, the first with the most commands that it saw. A
/// coordinator and an acceptor with the same number are two senders. In a fast round acceptors may
/// take proposals in different orders, and in a multi round coordinators may. If their values are
/// incompatible, the round has collided, and a new round is needed (Lamport, *Generalized Consensus
/// and Paxos*, 2005; Camargos, Schmidt, Pedone, *Multicoordinated Paxos*, 2007).
///
/// A contract sees a watch as its epoch and round, and a finite map from senders to the values that
/// it keeps of them, as histories.
#[derive(Drop)]
pub struct Watch {
    epoch: u32,
    round: Round,
    values: Vec<(Node, History)>,
}

impl Model for Watch {
    ghost use Rattle.std.specs.Prelude.{map};
    ghost use Rattle.std.specs.List.{IsDistinct};
    ghost use Rattle.std.specs.Map.{keys_of};
    ghost use Rattle.std.specs.FinMap.{from_entries};
    ghost use Rattle.gp_history.specs.Sequence.{history_of};
    ghost use Rattle.gp_collide.specs.Watched.{Watched};
    ghost use Rattle.gp_msg.specs.Nodes.{same_node};
    ghost use Rattle.gp_collide.specs.Codes.{watched_code};

    ghost Value = { Watched };

    ghost coded = { watched_code };

    ghost view = { λ w. record { round = (w.epoch, w.round); values = from_entries (map (λ e. (e.0, history_of e.1)) w.values.items) } };

    ghost invariant = { λ w. IsDistinct same_node (keys_of w.values.items) };
}

impl Watch {
    /// A watch over this round of this epoch that has seen nothing. `NoMemory` if memory runs out.
    pub fn new(alloc: Global, epoch: u32, round: Round) -> Result<Watch, NoMemory>
        ensures { IfOk result (λ w. w ≡ opening (epoch, round)) }
    {
        Ok(Watch {
            epoch,
            round,
            values: Vec::new(alloc),
        })
    }

    /// Sees a message. A value of the epoch and round of the watch is kept if no value of its
    /// sender is kept, or one with fewer commands. Other messages change nothing. Memory can run
    /// out only if the value is to be kept, and the watch then stays unchanged.
    pub fn see(&mut self, m: &Msg) -> Result<(), NoMemory>
        ensures seen { OnOk result (self.new ≡ after_message self.old (message_of m.now)) }
        ensures unchanged { OnErr result (self.new ≡ self.old) }
        ensures only_to_keep { OnErr result (after_message self.old (message_of m.now) ≢ self.old) }
    {
        match m {
            Msg::P2a {
                epoch,
                round,
                coordinator,
                value,
            } if self.watches(*epoch, *round) => {
                self.keep(Node::Coordinator(*coordinator), value)
            }
            Msg::P2b {
                epoch,
                round,
                acceptor,
                vote,
            } if self.watches(*epoch, *round) => { self.keep(Node::Acceptor(*acceptor), vote) }
            _ => Ok(()),
        }
    }

    /// Whether two kept values are incompatible.
    pub fn clashed(&self) -> bool
        ensures clash { IsTrue result ↔ HasClash self.now }
        ensures calm { (result ≡ false) ↔ IsCalm self.now }
    {
        for i in 0..self.values.len() {
            if goes_against(&self.values[i].1, &self.values[..i]) {
                return true;
            }
        }
        false
    }

    // Whether it watches this round of this epoch.
    fn watches(&self, epoch: u32, round: Round) -> bool
        ensures { result ≡ same_epoch_round (epoch, round) self.now.round }
    {
        epoch == self.epoch && round == self.round
    }

    // Keeps a value of a sender if none is kept, or one with fewer commands.
    fn keep(&mut self, sender: Node, value: &History) -> Result<(), NoMemory>
        ensures kept { OnOk result (self.new ≡ record self.old { values = values_with self.old.values sender (history_of value.now) }) }
        ensures unchanged { OnErr result (self.new ≡ self.old) }
        ensures only_to_keep { OnErr result (values_with self.old.values sender (history_of value.now) ≢ self.old.values) }
    {
        match place_of(&self.values, sender) {
            Some(place) => {
                if self.values[place].1.len() < value.len() {
                    self.values[place].1 = value.copy()?;
                }
            }
            None => self.values.push((sender, value.copy()?))?,
        }
        Ok(())
    }
}

// The place at which the value of a sender is kept.
fn place_of(values: &[(Node, History)], sender: Node) -> Option<usize>
    ensures { result ≡ position (λ e. same_node sender e.0) values.now }
{
    values.iter().position(|(of, _)| sender == *of)
}

// Whether a value is incompatible with one of these.
fn goes_against(value: &History, values: &[(Node, History)]) -> bool
    ensures { MatchBool result (Any (λ e. ¬ IsCompatible (history_of value.now) (history_of e.1)) values.now)
        (All (λ e. IsCompatible (history_of value.now) (history_of e.1)) values.now) }
{
    values.iter().any(|(_, other)| !compatible(value, other))
}
