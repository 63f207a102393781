//! The lines of a script up to the one that says the configuration.
ghost use Rattle.std.specs.Prelude.{◌≡◌, ◌<◌, ◌≤◌, ◌+◌, ◌^◌, length, IfOk};
ghost use Rattle.gp_words.specs.Tokens.{texts};
ghost use Rattle.gp_script.specs.Faults.{Says};
ghost use Rattle.gp_service.specs.Languages.{Language};
ghost use Rattle.gp_text.specs.Reading.{is_nodes, nodes_line, is_passed, holds_limit, reading_in};
ghost use Rattle.gp_text.specs.Playing.{Opens};

use crate::limits::MOST_BYTES;
use crate::played::Unplayed;
use gp_msg::Records;
use gp_round::Config;
use gp_script::{LineFault, Reason, config_of, form_of};
use gp_words::{first_line, text_of, tokens_of};
use std::alloc::Global;

/// A configuration, and what follows the line that says it.
#[derive(Clone, Copy)]
pub struct Beginning<'a> {
    pub config: Config,
    pub rest: &'a [u8],
    /// The number of the next line.
    pub number: u64,
    /// The place in the input of the next line.
    pub place: usize,
}

/// Whether a line that begins at this place contains the first byte past the limit.
pub fn holds_limit(place: usize, line: &[u8]) -> bool
    requires { place + length line.now < 2 ^ 64 }
    ensures { result ≡ holds_limit place line.now }
{
    place <= MOST_BYTES && MOST_BYTES < place + line.len()
}

/// Whether a line is empty or begins with `#`.
pub fn is_passed(text: &[u8]) -> bool
    ensures { result ≡ is_passed text.now }
{
    match text {
        [] => true,
        [byte, ..] => *byte == b'#',
    }
}

fn is_nodes(tokens: &[&[u8]]) -> bool
    ensures { result ≡ is_nodes (texts tokens.now) }
{
    match tokens {
        [] => false,
        [word, ..] => *word == b"nodes".as_slice(),
    }
}

/// The configuration that a line gives, the first that is neither empty nor a comment. It is
/// refused with `NoNodesLine` if its first word is not `nodes`, with `BadLine` if it has not
/// exactly three more words or one is empty, and else with the reason of `config_of`: `BadNumber`
/// if a word spells no number, `BadCount` if a number is out of range. `NoMemory` if memory runs
/// out.
#[tactic(auto, unfolding(crate::specs::Reading::nodes_line))]
pub fn nodes_line(alloc: Global, text: &[u8]) -> Result<Config, LineFault>
    ensures { Says result (nodes_line text.now) }
{
    let tokens = tokens_of(alloc, text)?;
    if !is_nodes(&tokens) {
        return Err(LineFault::Refused(Reason::NoNodesLine));
    }
    match form_of(&tokens) {
        Some(form) => Ok(config_of(form)?),
        None => Err(LineFault::Refused(Reason::BadLine)),
    }
}

/// Reads up to the line that says the configuration. The result is the same for every language of
/// operations.
pub fn read_beginning(alloc: Global, bytes: &[u8]) -> Result<Beginning<'_>, Unplayed>
    ensures opens { (language : Language) → Opens language (reading_in language bytes.now) result }
    ensures short { IfOk result (λ o. (o.place ≤ MOST_BYTES) × (o.number ≤ o.place + 1) × (o.place + length o.rest.now ≡ length bytes.now)) }
{
    let mut rest = bytes;
    let mut number = 1u64;
    let mut place = 0usize;
    while !rest.is_empty() {
        let (line, after) = first_line(rest);
        if holds_limit(place, line) {
            let too_long = LineFault::Refused(Reason::TooLong);
            return Err(Unplayed::at(number, too_long, Records::new(alloc)));
        }
        let text = text_of(line);
        if !is_passed(text) {
            return match nodes_line(alloc, text) {
                Ok(config) => Ok(Beginning {
                    config,
                    rest: after,
                    number: number + 1,
                    place: place + line.len(),
                }),
                Err(why) => Err(Unplayed::at(number, why, Records::new(alloc))),
            };
        }
        place += line.len();
        number += 1;
        rest = after;
    }
    let none = LineFault::Refused(Reason::NoNodesLine);
    Err(Unplayed::at(number, none, Records::new(alloc)))
}
