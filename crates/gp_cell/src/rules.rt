//! The rules of the protocol for a wire.
ghost use Rattle.gp_cell.specs.Lawful.{paxos_legal};
ghost use Rattle.gp_cell.specs.Still.{paxos_stays};

use gp_round::Config;
use gp_wire::Rules;

/// The rules of the protocol for a configuration. A record is legal after a list if its event fits
/// the list, and its messages are those that the tables of its node's role give for the state that
/// the node's own records make.
#[derive(Clone, Copy)]
pub struct PaxosRules {
    pub config: Config,
}

impl Rules for PaxosRules {
    ghost legal = { λ r. paxos_legal r.config };

    ghost stays = { λ r. paxos_stays r.config };
}
