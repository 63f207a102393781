//! Reading the script of `run`.
ghost use Rattle.std.specs.Prelude.{◌≡◌, IfOk};
ghost use Rattle.gp_text.specs.Offering.{offers_reading};
ghost use Rattle.gp_text.specs.OfferAnswers.{Reads, unread_at};
ghost use Rattle.gp_text.specs.Offered.{AreOffered};

use crate::beginning::holds_limit;
use crate::offer_lines::after_line;
use gp_msg::OfferList;
use gp_round::Config;
use gp_script::{LineFault, Reason};
use gp_words::{first_line, text_of};
use std::alloc::Global;

/// A configuration, and what is offered to its proposers, in the order of the script.
#[derive(Drop)]
pub struct Offers {
    pub config: Config,
    pub list: OfferList,
}

/// Why a script was not read to its end.
#[derive(Clone, Copy, Debug, PartialEq, Eq)]
pub enum Unread {
    /// `line`, counted from 1, is the first line that is refused, for `reason`.
    Bad { line: u64, reason: Reason },
    /// Memory ran out.
    NoMemory,
}

impl Unread {
    // The line with this number was not read.
    fn at(line: u64, why: LineFault) -> Unread
        ensures { result ≡ unread_at line why }
    {
        match why {
            LineFault::NoMemory => Unread::NoMemory,
            LineFault::Refused(reason) => Unread::Bad { line, reason },
        }
    }
}

/// Reads a script of `run`: a `nodes` line, followed by lines that offer operations of the key
/// store.
///
/// A script is refused at the first line that breaks a rule, for the first reason in the order of
/// the tokens of that line. After the `nodes` line, every line of the table that is not an offer is
/// refused with `Reason::BadLine`. The 65th offer is refused with `Reason::TooManyCommands`. A line
/// that holds the byte at place 1,048,576 of the input, counted from 0, is refused with
/// `Reason::TooLong` before all else. A script without a `nodes` line is refused with
/// `Reason::NoNodesLine`.
pub fn read_offers(alloc: Global, bytes: &[u8]) -> Result<Offers, Unread>
    ensures reads { Reads (offers_reading bytes.now) result }

    // There are at most 64 offers, each of an operation at one of the eight proposers, and the
    // configuration is in range.
    ensures offered { IfOk result AreOffered }
{
    let mut so_far = None;
    let mut rest = bytes;
    let mut number = 1u64;
    let mut place = 0usize;
    while !rest.is_empty() {
        let (line, after) = first_line(rest);
        if holds_limit(place, line) {
            return Err(Unread::at(number, LineFault::Refused(Reason::TooLong)));
        }
        match after_line(alloc, so_far, text_of(line)) {
            Ok(more) => so_far = more,
            Err(why) => return Err(Unread::at(number, why)),
        }
        place += line.len();
        number += 1;
        rest = after;
    }
    match so_far {
        Some(offers) => Ok(offers),
        None => Err(Unread::at(number, LineFault::Refused(Reason::NoNodesLine))),
    }
}
