//! What lines say.
ghost use Rattle.std.specs.Prelude.{◌≡◌};
ghost use Rattle.gp_words.specs.Tokens.{texts};
ghost use Rattle.gp_msg.specs.Nodes.{node_number, may_fall};
ghost use Rattle.gp_script.specs.Items.{round_count, step_in, kept_of, fall_of, offer_of, plain_item_of, item_of, counts_of};
ghost use Rattle.gp_script.specs.FormViews.{form_view, kept_view};
ghost use Rattle.gp_script.specs.Faults.{Says};

use crate::fault::LineFault;
use crate::forms::{Form, KeptForm};
use crate::names::{coordinator_of, count_of, learner_of, node_of, number, proposer_of};
use crate::reason::Reason;
use gp_command::Draft;
use gp_msg::{Kept, KeptStep, Node, may_fall};
use gp_round::{Config, LAST_COUNT, Round};
use gp_service::{Service, Unsaid};
use std::alloc::Global;

/// What a line after the `nodes` line says.
#[derive(Drop)]
pub enum Item {
    /// A proposer is given the draft of an operation to offer.
    Offer { proposer: u32, draft: Draft },
    /// A coordinator begins a round.
    Begin { coordinator: u32, round: Round },
    /// A node takes a message.
    Take { node: Node, message: u64 },
    /// A node crashes and starts again.
    Fall { node: Node, kept: Option<Kept> },
    /// The learned line of this learner is printed; no event.
    Show { learner: u32 },
}

fn round_count(token: &[u8]) -> Result<u32, Reason>
    ensures { result ≡ round_count token.now }
{
    count_of(1, LAST_COUNT, token)
}

fn step_in(form: KeptForm<'_>) -> Option<KeptStep>
    ensures { result ≡ step_in (kept_view form.entry) }
{
    match form {
        KeptForm::Nothing => None,
        KeptForm::Take(_) => Some(KeptStep::Took),
        KeptForm::Begin(_, _) => Some(KeptStep::Began),
    }
}

fn kept_of(number_of_node: u32, form: KeptForm<'_>) -> Result<Option<Kept>, Reason>
    ensures { result ≡ kept_of number_of_node (kept_view form.entry) }
{
    match form {
        KeptForm::Nothing => Ok(None),
        KeptForm::Take(message) => Ok(Some(Kept::Take(number(message)?))),
        KeptForm::Begin(count, mode) => {
            let count = round_count(count)?;
            Ok(Some(Kept::Begin(Round::of(number_of_node, count, mode))))
        }
    }
}

fn node_number(node: Node) -> u32
    ensures { result ≡ node_number node }
{
    match node {
        Node::Proposer(number)
        | Node::Coordinator(number)
        | Node::Acceptor(number)
        | Node::Learner(number) => number,
    }
}

fn fall_of(node: Node, form: KeptForm<'_>) -> Result<Item, Reason>
    ensures { result ≡ fall_of node (kept_view form.entry) }
{
    if !may_fall(node, step_in(form)) {
        return Err(Reason::BadFall);
    }
    let kept = kept_of(node_number(node), form)?;
    Ok(Item::Fall { node, kept })
}

// What an offer of these words says.
#[tactic(auto, unfolding(crate::specs::Items::offer_of))]
fn offer_of<S: Service>(
    alloc: Global,
    config: &Config,
    node: &[u8],
    words: &[&[u8]],
) -> Result<Item, LineFault>
    ensures { Says result (offer_of S.profile.language config.now node.now (texts words.now)) }
{
    match S::draft(alloc, words) {
        Ok(draft) => {
            let proposer = proposer_of(config, node)?;
            Ok(Item::Offer { proposer, draft })
        }
        Err(Unsaid::NoOperation) => Err(LineFault::Refused(Reason::BadLine)),
        Err(Unsaid::Fault(fault)) => {
            let _proposer = proposer_of(config, node)?;
            Err(LineFault::Refused(Reason::from(fault)))
        }
        Err(Unsaid::NoMemory) => Err(LineFault::NoMemory),
    }
}

// What a line says that is neither the `nodes` line nor an offer.
#[tactic(auto, unfolding(crate::specs::Items::plain_item_of))]
fn plain_item_of(config: &Config, line: Form<'_, '_>) -> Result<Item, Reason>
    ensures { result ≡ plain_item_of config.now (form_view line.entry) }
{
    match line {
        Form::Nodes(_, _, _) | Form::Offer(_, _) => Err(Reason::BadLine),
        Form::Begin(node, count, mode) => {
            let coordinator = coordinator_of(config, node)?;
            let round = Round::of(coordinator, round_count(count)?, mode);
            Ok(Item::Begin { coordinator, round })
        }
        Form::Take(node, message) => {
            let node = node_of(config, node)?;
            let message = number(message)?;
            Ok(Item::Take { node, message })
        }
        Form::Fall(node, kept) => fall_of(node_of(config, node)?, kept),
        Form::Show(node) => Ok(Item::Show {
            learner: learner_of(config, node)?,
        }),
    }
}

/// What a line after the `nodes` line says to a service. Its tokens are read from left to right,
/// and the first one that breaks its rule gives the reason. If no operation has the words of an
/// offer, the reason is `BadLine`, whatever its other tokens are.
#[tactic(auto, unfolding(crate::specs::Items::plain_item_of))]
pub fn item_of<S: Service>(
    alloc: Global,
    config: &Config,
    line: Form<'_, '_>,
) -> Result<Item, LineFault>
    ensures { Says result (item_of S.profile.language config.now (form_view line.entry)) }
{
    match line {
        Form::Offer(node, words) => offer_of::<S>(alloc, config, node, words),
        _ => Ok(plain_item_of(config, line)?),
    }
}

/// The configuration that the `nodes` line gives. Its numbers are read from left to right, and the
/// first one that breaks its rule gives the reason. Any other line is a `BadLine`.
#[tactic(auto, unfolding(crate::specs::Items::counts_of))]
pub fn config_of(line: Form<'_, '_>) -> Result<Config, Reason>
    ensures { result ≡ counts_of (form_view line.entry) }
{
    let Form::Nodes(acceptors, coordinators, learners) = line else {
        return Err(Reason::BadLine);
    };
    let acceptors = count_of(3, 7, acceptors)?;
    let coordinators = count_of(1, 5, coordinators)?;
    let learners = count_of(1, 4, learners)?;
    Ok(Config::new(acceptors, coordinators, learners)?)
}
