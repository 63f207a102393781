//! The lines of a script by their words.
ghost use Rattle.std.specs.Prelude.{◌≡◌, option_map};
ghost use Rattle.gp_words.specs.Tokens.{texts};
ghost use Rattle.gp_script.specs.Forms.{mode_of, nodes_form, offer_form, begin_form, take_form, kept_take_form, kept_begin_form, kept_form, fall_form, show_form, form_by_word, form_of};
ghost use Rattle.gp_script.specs.FormViews.{form_view, kept_view};

use gp_round::Mode;
use gp_words::has_empty;

/// What a crash keeps, with the tokens of its numbers.
#[derive(Clone, Copy)]
pub enum KeptForm<'a> {
    /// Nothing but what was durable before.
    Nothing,
    /// The step that took this message.
    Take(&'a [u8]),
    /// The step that began a round with this count and mode.
    Begin(&'a [u8], Mode),
}

/// A line, with the tokens of its names and numbers.
#[derive(Clone, Copy)]
pub enum Form<'t, 'a> {
    /// The numbers of acceptors, coordinators and learners.
    Nodes(&'a [u8], &'a [u8], &'a [u8]),
    /// A proposer, and the words of the operation that it offers.
    Offer(&'a [u8], &'t [&'a [u8]]),
    /// A coordinator, and the count and mode of the round that it begins.
    Begin(&'a [u8], &'a [u8], Mode),
    /// A node, and the message that it takes.
    Take(&'a [u8], &'a [u8]),
    /// A node that crashes, and what it keeps.
    Fall(&'a [u8], KeptForm<'a>),
    /// A learner whose learned line is to be printed.
    Show(&'a [u8]),
}

fn mode_of(word: &[u8]) -> Option<Mode>
    ensures { result ≡ mode_of word.now }
{
    if word == b"single".as_slice() {
        Some(Mode::Single)
    } else if word == b"multi".as_slice() {
        Some(Mode::Multi)
    } else if word == b"fast".as_slice() {
        Some(Mode::Fast)
    } else {
        None
    }
}

fn nodes_form<'t, 'a>(tokens: &'t [&'a [u8]]) -> Option<Form<'t, 'a>>
    ensures { option_map form_view result ≡ nodes_form (texts tokens.now) }
{
    match tokens {
        [acceptors, coordinators, learners] => {
            Some(Form::Nodes(*acceptors, *coordinators, *learners))
        }
        _ => None,
    }
}

fn offer_form<'t, 'a>(tokens: &'t [&'a [u8]]) -> Option<Form<'t, 'a>>
    ensures { option_map form_view result ≡ offer_form (texts tokens.now) }
{
    let [node, operation @ ..] = tokens else {
        return None;
    };
    Some(Form::Offer(*node, operation))
}

fn begin_form<'t, 'a>(tokens: &'t [&'a [u8]]) -> Option<Form<'t, 'a>>
    ensures { option_map form_view result ≡ begin_form (texts tokens.now) }
{
    match tokens {
        [node, count, word] => match mode_of(*word) {
            Some(mode) => Some(Form::Begin(*node, *count, mode)),
            None => None,
        },
        _ => None,
    }
}

fn take_form<'t, 'a>(tokens: &'t [&'a [u8]]) -> Option<Form<'t, 'a>>
    ensures { option_map form_view result ≡ take_form (texts tokens.now) }
{
    match tokens {
        [node, message] => Some(Form::Take(*node, *message)),
        _ => None,
    }
}

fn kept_take_form<'a>(tokens: &[&'a [u8]]) -> Option<KeptForm<'a>>
    ensures { option_map kept_view result ≡ kept_take_form (texts tokens.now) }
{
    match tokens {
        [message] => Some(KeptForm::Take(*message)),
        _ => None,
    }
}

fn kept_begin_form<'a>(tokens: &[&'a [u8]]) -> Option<KeptForm<'a>>
    ensures { option_map kept_view result ≡ kept_begin_form (texts tokens.now) }
{
    match tokens {
        [count, word] => match mode_of(*word) {
            Some(mode) => Some(KeptForm::Begin(*count, mode)),
            None => None,
        },
        _ => None,
    }
}

fn kept_form<'a>(tokens: &[&'a [u8]]) -> Option<KeptForm<'a>>
    ensures { option_map kept_view result ≡ kept_form (texts tokens.now) }
{
    let [word, others @ ..] = tokens else {
        return Some(KeptForm::Nothing);
    };
    let word = *word;
    if word == b"take".as_slice() {
        kept_take_form(others)
    } else if word == b"begin".as_slice() {
        kept_begin_form(others)
    } else {
        None
    }
}

fn fall_form<'t, 'a>(tokens: &'t [&'a [u8]]) -> Option<Form<'t, 'a>>
    ensures { option_map form_view result ≡ fall_form (texts tokens.now) }
{
    let [node, others @ ..] = tokens else {
        return None;
    };
    match kept_form(others) {
        Some(kept) => Some(Form::Fall(*node, kept)),
        None => None,
    }
}

fn show_form<'t, 'a>(tokens: &'t [&'a [u8]]) -> Option<Form<'t, 'a>>
    ensures { option_map form_view result ≡ show_form (texts tokens.now) }
{
    match tokens {
        [node] => Some(Form::Show(*node)),
        _ => None,
    }
}

fn form_by_word<'t, 'a>(tokens: &'t [&'a [u8]]) -> Option<Form<'t, 'a>>
    ensures { option_map form_view result ≡ form_by_word (texts tokens.now) }
{
    let [word, others @ ..] = tokens else {
        return None;
    };
    let word = *word;
    if word == b"nodes".as_slice() {
        nodes_form(others)
    } else if word == b"offer".as_slice() {
        offer_form(others)
    } else if word == b"begin".as_slice() {
        begin_form(others)
    } else if word == b"take".as_slice() {
        take_form(others)
    } else if word == b"fall".as_slice() {
        fall_form(others)
    } else if word == b"show".as_slice() {
        show_form(others)
    } else {
        None
    }
}

/// The line of the table that has these tokens, or `None` if there is none.
#[tactic(auto, unfolding(crate::specs::Forms::form_of))]
pub fn form_of<'t, 'a>(tokens: &'t [&'a [u8]]) -> Option<Form<'t, 'a>>
    ensures { option_map form_view result ≡ form_of (texts tokens.now) }
{
    if has_empty(tokens) {
        None
    } else {
        form_by_word(tokens)
    }
}
