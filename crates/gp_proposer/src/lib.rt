//! The proposer: it numbers the drafts that it is given, and proposes them as commands.
#![tactic(auto)]

ghost use Rattle.std.specs.Prelude.{◌≡◌, ◌<◌, ◌^◌, ◌-◌, IfOk, OnOk, OnErr, IfErr, map};
ghost use Rattle.std.specs.Option.{option_to_list};
ghost use Rattle.gp_msg.specs.Messages.{message_of, maybe_stamped};
ghost use Rattle.gp_proposer.specs.Table.{opening, proposer_offer};

use gp_command::{Command, CommandId, Draft};
use gp_msg::{Msg, Outs};
use std::alloc::Global;
use std::marker::Model;

/// A proposer: its number among the proposers, and how many commands it has proposed.
#[derive(Clone, Copy, PartialEq, Eq)]
pub struct Proposer {
    number: u32,
    offers: u32,
}

impl Model for Proposer {
    ghost use Rattle.gp_proposer.specs.State.{ProposerState};

    ghost Value = { ProposerState };

    ghost view = { λ p. record { number = p.number; offers = p.offers } };

    ghost inverse = { λ s. record { number = s.number; offers = s.offers } };
}

/// Memory ran out. The draft is returned.
#[derive(Drop, Debug)]
pub struct Unoffered {
    pub draft: Draft,
}

impl Proposer {
    /// A proposer that has proposed nothing. `number` is its number among the proposers, from 0.
    pub fn new(number: u32) -> Proposer
        ensures { result ≡ opening number }
    {
        Proposer { number, offers: 0 }
    }

    /// Makes a command of the draft with the next number, counted from 1, and returns the message
    /// that proposes it. No number is used again, so there must be fewer than 2^32 - 1 offers
    /// before this one. If memory runs out, the proposer stays unchanged, and `Unoffered` returns
    /// the draft.
    pub fn offer(&mut self, alloc: Global, draft: Draft) -> Result<Outs, Unoffered>
        requires { self.old.offers < 2 ^ 32 - 1 }
        ensures next { OnOk result (self.new ≡ (proposer_offer self.old draft).0) }
        ensures sent { IfOk result (λ outs. map message_of outs ≡ option_to_list (maybe_stamped 0 (proposer_offer self.old draft).1)) }
        ensures unchanged { OnErr result (self.new ≡ self.old) }
        ensures back { IfErr result (λ e. e.draft ≡ draft) }
    {
        let number = self.offers + 1;
        let id = CommandId {
            proposer: self.number,
            number,
        };
        let Ok(copy) = draft.copy() else {
            return Err(Unoffered { draft });
        };
        let mut outs = Outs::new(alloc);
        match outs.push(Msg::Propose {
            command: Command::new(id, copy),
        }) {
            Ok(()) => {
                self.offers = number;
                Ok(outs)
            }
            Err(_) => Err(Unoffered { draft }),
        }
    }
}
