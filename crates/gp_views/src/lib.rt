//! Local reads of a key store: a feed publishes what a replica ran, and readers read it without a
//! lock.
#![tactic(auto)]

mod book;
mod feed;
mod image;
mod reader;
mod sight;
mod told;

pub use feed::Feed;
pub use reader::{Reader, Unread};
pub use told::Told;
