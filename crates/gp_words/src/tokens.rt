//! Tokens: the parts of a text that single spaces separate.
ghost use Rattle.std.specs.Prelude.{◌≡◌, ◌==◌, ◌∷◌, [], IfOk, MatchOption, length, position};
ghost use Rattle.std.specs.List.{list_any};
ghost use Rattle.gp_words.specs.Tokens.{is_space, tokens_of, texts, has_empty};

use gp_memory::NoMemory;
use std::alloc::Global;

/// The tokens of a text, split at each single space.
///
/// Two spaces in a row, or one at an end, make an empty token. The empty text has one token, which
/// is empty.
pub fn tokens_of(alloc: Global, text: &[u8]) -> Result<Vec<&[u8]>, NoMemory>
    ensures { IfOk result (λ tokens. texts tokens.items ≡ tokens_of text.now) }
{
    let tokens: Vec<&[u8]> = text.split(|byte| *byte == b' ').collect(alloc)?;
    Ok(tokens)
}

/// The first token of a text, and what follows the space after it, if there is one.
pub fn split_token(text: &[u8]) -> (&[u8], Option<&[u8]>)
    ensures { MatchOption result.1 (tokens_of text.now ≡ result.0.now ∷ []) (λ rest. tokens_of text.now ≡ result.0.now ∷ tokens_of rest.now) }
{
    match space_place(text) {
        Some(place) => (&text[..place], Some(&text[place + 1..])),
        None => (text, None),
    }
}

/// Whether one of the tokens is empty.
pub fn has_empty(tokens: &[&[u8]]) -> bool
    ensures { result ≡ has_empty (texts tokens.now) }
{
    any_empty(tokens)
}

fn any_empty(tokens: &[&[u8]]) -> bool
    ensures { result ≡ list_any (λ token. length token.now == 0) tokens.now }
{
    tokens.iter().any(|token| token.is_empty())
}

fn space_place(text: &[u8]) -> Option<usize>
    ensures { result ≡ position is_space text.now }
{
    text.iter().position(|byte| *byte == b' ')
}
