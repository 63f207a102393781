//! Numbers, counts and nodes as tokens.
ghost use Rattle.std.specs.Prelude.{◌≡◌, ◌≤◌, IfOk};
ghost use Rattle.gp_script.specs.Names.{number, count_of, letter_and_number, node_of, proposer_of, coordinator_of, learner_of};

use crate::reason::Reason;
use gp_command::PROPOSERS;
use gp_msg::Node;
use gp_round::Config;
use gp_words::number_of;

/// The number that a token spells, or `BadNumber` if it spells none.
pub fn number(token: &[u8]) -> Result<u64, Reason>
    ensures { result ≡ number token.now }
{
    number_of(token).ok_or(Reason::BadNumber)
}

/// The number from `low` to `high` that a token spells. The result is `BadNumber` if the token
/// spells no number, and `BadCount` if the number is out of range.
#[tactic(auto, unfolding(crate::specs::Names::count_of))]
pub fn count_of(low: u32, high: u32, token: &[u8]) -> Result<u32, Reason>
    ensures said { result ≡ count_of low high token.now }
    ensures within { IfOk result (λ n. (low ≤ n) × (n ≤ high)) }
{
    let number = number(token)?;
    if number >= u64::from(low) && number <= u64::from(high) {
        Ok(number as u32)
    } else {
        Err(Reason::BadCount)
    }
}

#[tactic(auto, unfolding(crate::specs::Names::letter_and_number))]
fn letter_and_number(token: &[u8]) -> Option<(u8, u64)>
    ensures { result ≡ letter_and_number token.now }
{
    let (letter, digits) = token.split_first()?;
    let number = number_of(digits)?;
    Some((*letter, number))
}

/// The node of the configuration that a token names, or `NoNode` if it names none.
#[tactic(auto, unfolding(crate::specs::Names::node_of))]
pub fn node_of(config: &Config, token: &[u8]) -> Result<Node, Reason>
    ensures { result ≡ node_of config.now token.now }
{
    let (letter, number) = letter_and_number(token).ok_or(Reason::NoNode)?;
    if letter == b'p' && number < u64::from(PROPOSERS) {
        Ok(Node::Proposer(number as u32))
    } else if letter == b'c' && number < u64::from(config.coordinators()) {
        Ok(Node::Coordinator(number as u32))
    } else if letter == b'a' && number < u64::from(config.acceptors()) {
        Ok(Node::Acceptor(number as u32))
    } else if letter == b'l' && number < u64::from(config.learners()) {
        Ok(Node::Learner(number as u32))
    } else {
        Err(Reason::NoNode)
    }
}

/// The proposer that a token names, or `NoNode` if it names none.
pub fn proposer_of(config: &Config, token: &[u8]) -> Result<u32, Reason>
    ensures { result ≡ proposer_of config.now token.now }
{
    match node_of(config, token)? {
        Node::Proposer(number) => Ok(number),
        _ => Err(Reason::NoNode),
    }
}

/// The coordinator that a token names, or `NoNode` if it names none.
pub fn coordinator_of(config: &Config, token: &[u8]) -> Result<u32, Reason>
    ensures { result ≡ coordinator_of config.now token.now }
{
    match node_of(config, token)? {
        Node::Coordinator(number) => Ok(number),
        _ => Err(Reason::NoNode),
    }
}

/// The learner that a token names, or `NoNode` if it names none.
pub fn learner_of(config: &Config, token: &[u8]) -> Result<u32, Reason>
    ensures { result ≡ learner_of config.now token.now }
{
    match node_of(config, token)? {
        Node::Learner(number) => Ok(number),
        _ => Err(Reason::NoNode),
    }
}
