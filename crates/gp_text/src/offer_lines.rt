//! What the lines of a script of `run` add.
ghost use Rattle.gp_script.specs.FormViews.{form_view};
ghost use Rattle.gp_script.specs.Faults.{Says};
ghost use Rattle.gp_text.specs.Offering.{offer_by, offer_line, with_offer, table_line, after_line};

use crate::beginning::{is_passed, nodes_line};
use crate::limits::MOST_RUN_OFFERS;
use crate::offers::Offers;
use gp_command::Draft;
use gp_msg::OfferList;
use gp_round::Config;
use gp_script::{Form, Item, LineFault, Reason, form_of, item_of};
use gp_store::KeyStore;
use gp_words::tokens_of;
use std::alloc::Global;

// The proposer and the draft of an offer in a line of the table.
fn offer_by(alloc: Global, config: &Config, form: Form<'_, '_>) -> Result<(u32, Draft), LineFault>
    ensures { Says result (offer_by config.now (form_view form.entry)) }
{
    let Form::Offer(_, _) = form else {
        return Err(LineFault::Refused(Reason::BadLine));
    };
    match item_of::<KeyStore>(alloc, config, form)? {
        Item::Offer { proposer, draft } => Ok((proposer, draft)),
        _ => Err(LineFault::Refused(Reason::BadLine)),
    }
}

#[tactic(auto, unfolding(crate::specs::Offering::offer_line))]
fn offer_line(alloc: Global, config: &Config, text: &[u8]) -> Result<(u32, Draft), LineFault>
    ensures { Says result (offer_line config.now text.now) }
{
    let tokens = tokens_of(alloc, text)?;
    match form_of(&tokens) {
        Some(form) => offer_by(alloc, config, form),
        None => Err(LineFault::Refused(Reason::BadLine)),
    }
}

// Adds an offer, unless the script already has as many as it may have.
#[tactic(auto, unfolding(crate::specs::Offering::with_offer))]
fn with_offer(offers: Offers, offer: (u32, Draft)) -> Result<Offers, LineFault>
    ensures { Says result (with_offer offers offer) }
{
    let Offers { config, mut list } = offers;
    if list.as_slice().len() >= MOST_RUN_OFFERS {
        return Err(LineFault::Refused(Reason::TooManyCommands));
    }
    match list.push(offer) {
        Ok(()) => Ok(Offers { config, list }),
        Err(_) => Err(LineFault::NoMemory),
    }
}

// What a line of the table adds: the first line gives the configuration, and the others are offers.
#[tactic(auto, unfolding(crate::specs::Offering::table_line))]
fn table_line(alloc: Global, so_far: Option<Offers>, text: &[u8]) -> Result<Offers, LineFault>
    ensures { Says result (table_line so_far text.now) }
{
    match so_far {
        None => Ok(Offers {
            config: nodes_line(alloc, text)?,
            list: OfferList::new(alloc),
        }),
        Some(offers) => {
            let offer = offer_line(alloc, &offers.config, text)?;
            with_offer(offers, offer)
        }
    }
}

/// What a line adds to what the lines before it said.
#[tactic(auto, unfolding(crate::specs::Offering::after_line))]
pub fn after_line(
    alloc: Global,
    so_far: Option<Offers>,
    text: &[u8],
) -> Result<Option<Offers>, LineFault>
    ensures { Says result (after_line so_far text.now) }
{
    if is_passed(text) {
        Ok(so_far)
    } else {
        Ok(Some(table_line(alloc, so_far, text)?))
    }
}
