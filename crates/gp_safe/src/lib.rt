//! The safe choice of a value for a round, and the joins of meets over quorums, which the roles use
//! too.
#![tactic(auto)]

mod changes;
mod choice;
mod cow;
mod held;
mod joins;
mod meets;
mod news;

pub use changes::join_news;
pub use choice::{Answer, pick};
pub use cow::HistoryCow;
pub use held::{Replaced, newer};
pub use joins::join;
pub use meets::{Values, join_of_meets};
