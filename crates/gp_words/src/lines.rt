//! Lines.
ghost use Rattle.std.specs.Prelude.{◌≡◌, ◌<◌, ◌+◌, ◌∷◌, ◌++◌, length, position};
ghost use Rattle.gp_words.specs.Lines.{is_line_feed, lines_of, text_of};

/// The first line of a text that is not empty, with the line feed that ends it, and the remaining
/// text.
///
/// The last line may lack its line feed. No further line follows a line feed at the end of the
/// text.
pub fn first_line(bytes: &[u8]) -> (&[u8], &[u8])
    requires { 0 < length bytes.now }
    ensures parts { bytes.now ≡ result.0.now ++ result.1.now }
    ensures some { 0 < length result.0.now }
    ensures first { lines_of bytes.now ≡ result.0.now ∷ lines_of result.1.now }
{
    match feed_place(bytes) {
        Some(place) => bytes.split_at(place + 1),
        None => bytes.split_at(bytes.len()),
    }
}

/// A line without its line feed.
#[tactic(auto, using(crate::proofs::LineLemmas::text_to_feed, crate::proofs::LineLemmas::text_whole))]
pub fn text_of(line: &[u8]) -> &[u8]
    ensures { result.now ≡ text_of line.now }
{
    match feed_place(line) {
        Some(place) => &line[..place],
        None => line,
    }
}

fn feed_place(bytes: &[u8]) -> Option<usize>
    ensures { result ≡ position is_line_feed bytes.now }
{
    bytes.iter().position(|byte| *byte == b'\n')
}
