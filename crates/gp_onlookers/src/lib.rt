//! Two readers that look at one key of a replica's store while nodes work.
#![tactic(auto)]

mod catching;
mod looks;
mod onlookers;
mod publisher;
mod texts;
mod watcher;

pub use looks::{Look, Looks};
pub use onlookers::{Onlookers, close, last_looks, watch};
pub use publisher::Publisher;
pub use texts::push_sight;
pub use watcher::Watcher;
