//! Words of texts: lines, tokens, numbers and spacing. What the words mean is left to other crates.
//!
//! Only `tokens_of` and the calls that write can run out of memory.
#![tactic(auto)]

pub mod laws;
mod lines;
mod numbers;
mod spacing;
mod tokens;

pub use lines::{first_line, text_of};
pub use numbers::{number_of, push_number};
pub use spacing::{push_dash, push_gap};
pub use tokens::{has_empty, split_token, tokens_of};
