//! Compares the lines of a report with those that were printed.
ghost use Rattle.std.specs.Prelude.{◌≡◌, ◌<◌, ◌+◌, ◌^◌, length};
ghost use Rattle.std.specs.Str.{bytes_eq};
ghost use Rattle.gp_words.specs.Lines.{lines_of, text_of};
ghost use Rattle.gp_verdict.specs.Parts.{texts_of, first_difference};

use gp_words::{first_line, text_of};

// Whether two lines have the same text.
fn are_alike(line: &[u8], other: &[u8]) -> bool
    ensures { result ≡ bytes_eq (text_of line.now) (text_of other.now) }
{
    text_of(line) == text_of(other)
}

/// The number of the first line at which two texts differ: their lines there differ, or only one of
/// them has a line there. The first line has this number. `None` if they do not differ.
pub fn first_difference(number: u64, printed: &[u8], wanted: &[u8]) -> Option<u64>
    requires { number + length printed.now < 2 ^ 63 }
    ensures { result ≡ first_difference number (texts_of (lines_of printed.now)) (texts_of (lines_of wanted.now)) }
{
    let mut number = number;
    let mut printed = printed;
    let mut wanted = wanted;
    while !printed.is_empty() {
        let (line, after) = first_line(printed);
        if wanted.is_empty() {
            return Some(number);
        }
        let (other, more) = first_line(wanted);
        if !are_alike(line, other) {
            return Some(number);
        }
        number += 1;
        printed = after;
        wanted = more;
    }
    match wanted {
        [] => None,
        [_, ..] => Some(number),
    }
}
