//! Laws of words. Each function is there for its contract, which is the law.
ghost use Rattle.std.specs.Prelude.{◌≡◌, ◌≢◌, ◌<◌, ◌≤◌, ◌^◌, ◌∷◌, ◌++◌, ℕ, List, [], Some, All, length, decimal};
ghost use Rattle.std.specs.List.{flat_map};
ghost use Rattle.gp_words.specs.Lines.{is_line_feed, lines_of, text_of};
ghost use Rattle.gp_words.specs.Tokens.{is_space, tokens_of};
ghost use Rattle.gp_words.specs.Bytes.{Lacks};
ghost use Rattle.gp_words.specs.Numbers.{number_of};
ghost use Rattle.gp_words.specs.Spacing.{joined, spaced, gap, dash};

/// The lines of a text, one after another, are the text, and none of them is empty.
pub fn lines_make_up_their_text()
    ensures whole { (bytes : List ℕ) → flat_map (λ line. line) (lines_of bytes) ≡ bytes }
    ensures some { (bytes : List ℕ) → All (λ line. 0 < length line) (lines_of bytes) }
{}

/// A text without a line feed, followed by a line feed, is a first line, whatever follows. Without
/// its line feed the line is the text again.
pub fn a_line_ends_at_its_line_feed()
    ensures first { (text rest : List ℕ) → Lacks is_line_feed text → lines_of (text ++ 10 ∷ rest) ≡ (text ++ 10 ∷ []) ∷ lines_of rest }
    ensures text { (text : List ℕ) → Lacks is_line_feed text → text_of (text ++ 10 ∷ []) ≡ text }
    ensures last { (text : List ℕ) → Lacks is_line_feed text → text_of text ≡ text }
{}

/// The tokens of a text, joined by single spaces, are the text. One or more words without spaces,
/// joined by single spaces, make a text whose tokens are these words.
pub fn tokens_are_what_single_spaces_separate()
    ensures joined { (text : List ℕ) → joined (tokens_of text) ≡ text }
    ensures split { (words : List (List ℕ)) → words ≢ [] → All (Lacks is_space) words → tokens_of (joined words) ≡ words }
    ensures first { (word rest : List ℕ) → Lacks is_space word → tokens_of (word ++ 32 ∷ rest) ≡ word ∷ tokens_of rest }
    ensures last { (word : List ℕ) → Lacks is_space word → tokens_of word ≡ word ∷ [] }
{}

/// A number below 2^64 is read back from what is written for it, and this is its only spelling. The
/// spelling has 1 to 20 bytes, none of which is a space or a line feed.
pub fn a_number_has_one_spelling()
    ensures again { (n : ℕ) → n < 2 ^ 64 → number_of (decimal n) ≡ Some n }
    ensures spelled { (token : List ℕ) (n : ℕ) → number_of token ≡ Some n → token ≡ decimal n }
    ensures below { (token : List ℕ) (n : ℕ) → number_of token ≡ Some n → n < 2 ^ 64 }
    ensures some { (n : ℕ) → n < 2 ^ 64 → 0 < length (decimal n) }
    ensures short { (n : ℕ) → n < 2 ^ 64 → length (decimal n) ≤ 20 }
    ensures spaceless { (n : ℕ) → n < 2 ^ 64 → Lacks is_space (decimal n) }
    ensures feedless { (n : ℕ) → n < 2 ^ 64 → Lacks is_line_feed (decimal n) }
{}

/// One more word is written as a gap and the word. A dash ends the words.
pub fn words_are_written_one_behind_another()
    ensures more { (words : List (List ℕ)) (word : List ℕ) → joined (words ++ word ∷ []) ≡ joined words ++ gap (length words) ++ word }
    ensures ended { (words : List (List ℕ)) → spaced words ≡ joined words ++ dash (length words) }
{}
