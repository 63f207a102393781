//! Histories that may be borrowed.
ghost use Rattle.std.specs.Prelude.{◌≡◌, IfOk};
ghost use Rattle.gp_history.specs.Sequence.{history_of};
ghost use Rattle.gp_safe.specs.Cow.{cow_history};

use gp_command::NoMemory;
use gp_history::Hist;
use gp_index::History;

/// A history that is borrowed or owned.
#[derive(Drop)]
pub enum HistoryCow<'a> {
    Borrowed(&'a History),
    Owned(History),
}

impl HistoryCow<'_> {
    /// The history.
    pub fn history(&self) -> &History
        ensures { history_of result.now ≡ cow_history self.now }
    {
        match self {
            HistoryCow::Borrowed(value) => value,
            HistoryCow::Owned(value) => value,
        }
    }

    /// The history, as an owned value. `NoMemory` if memory runs out.
    pub fn into_owned(self) -> Result<History, NoMemory>
        ensures { IfOk result (λ h. history_of h ≡ cow_history self.entry) }
    {
        match self {
            HistoryCow::Borrowed(value) => value.copy(),
            HistoryCow::Owned(value) => Ok(value),
        }
    }
}
