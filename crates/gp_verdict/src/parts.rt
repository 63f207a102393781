//! The parts of an input.
ghost use Rattle.std.specs.Prelude.{◌≡◌, ◌≤◌, ◌+◌, ◌++◌, length, take, drop};
ghost use Rattle.gp_words.specs.Lines.{lines_of};
ghost use Rattle.gp_verdict.specs.Parts.{is_divider, ends_trace, trace_lines, after_trace, short_lines};

use gp_text::{MOST_BYTES, holds_limit};
use gp_words::{first_line, split_token, text_of};

/// The first lines of an input, how many they are, and what follows them.
#[derive(Clone, Copy)]
pub struct Head<'a> {
    pub bytes: &'a [u8],
    pub lines: u64,
    pub rest: &'a [u8],
}

/// Whether this is the text of the line that separates a trace from a report.
pub fn is_divider(text: &[u8]) -> bool
    ensures { result ≡ is_divider text.now }
{
    text == b"--".as_slice()
}

// Whether a line with this text is not a line of a trace.
fn ends_trace(text: &[u8]) -> bool
    ensures { result ≡ ends_trace text.now }
{
    let (word, _) = split_token(text);
    is_divider(text) || word == b"show".as_slice()
}

// The bytes of an input before this place, which are this many lines, and the rest.
fn head_of(bytes: &[u8], place: usize, lines: u64) -> Head<'_>
    requires { place ≤ length bytes.now }
    ensures head { result.bytes.now ≡ take place bytes.now }
    ensures rest { result.rest.now ≡ drop place bytes.now }
    ensures lines { result.lines ≡ lines }
{
    let (head, rest) = bytes.split_at(place);
    Head {
        bytes: head,
        lines,
        rest,
    }
}

/// The lines of the trace: those before the first that is `--` or a `show` line.
pub fn trace_head(bytes: &[u8]) -> Head<'_>
    ensures head { lines_of result.bytes.now ≡ trace_lines (lines_of bytes.now) }
    ensures rest { lines_of result.rest.now ≡ after_trace (lines_of bytes.now) }
    ensures count { result.lines ≡ length (trace_lines (lines_of bytes.now)) }
    ensures few { result.lines + length result.rest.now ≤ length bytes.now }
{
    let mut rest = bytes;
    let mut lines = 0u64;
    let mut place = 0usize;
    while !rest.is_empty() {
        let (line, after) = first_line(rest);
        if ends_trace(text_of(line)) {
            return head_of(bytes, place, lines);
        }
        place += line.len();
        lines += 1;
        rest = after;
    }
    head_of(bytes, place, lines)
}

/// The lines before the first one that contains the byte at place 1,048,576, counted from 0.
pub fn short_head(bytes: &[u8]) -> Head<'_>
    ensures head { lines_of result.bytes.now ≡ short_lines 0 (lines_of bytes.now) }
    ensures parts { result.bytes.now ++ result.rest.now ≡ bytes.now }
    ensures count { result.lines ≡ length (short_lines 0 (lines_of bytes.now)) }
    ensures short { length result.bytes.now ≤ MOST_BYTES }
    ensures few { result.lines ≤ length result.bytes.now }
{
    let mut rest = bytes;
    let mut lines = 0u64;
    let mut place = 0usize;
    while !rest.is_empty() {
        let (line, after) = first_line(rest);
        if holds_limit(place, line) {
            return head_of(bytes, place, lines);
        }
        place += line.len();
        lines += 1;
        rest = after;
    }
    head_of(bytes, place, lines)
}
