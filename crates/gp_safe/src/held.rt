//! The values that are held of senders: of each the one with the most commands.
ghost use Rattle.std.specs.Prelude.{◌≡◌, Option, IfOk};
ghost use Rattle.std.specs.Option.{option_map, option_copied};
ghost use Rattle.gp_history.specs.Sequence.{history_of};
ghost use Rattle.gp_safe.specs.Held.{newer, value_with};

use crate::meets::Values;
use gp_command::NoMemory;
use gp_history::Hist;
use gp_index::History;

/// A copy of a value, if it is to be held: no value of its sender is held, or one with fewer
/// commands. Otherwise `None`. `NoMemory` if memory runs out.
pub fn newer(held: Option<&History>, value: &History) -> Result<Option<History>, NoMemory>
    ensures { IfOk result (λ v. option_map history_of v ≡ newer (option_map history_of (option_copied held.entry)) (history_of value.now)) }
{
    match held {
        Some(held) if held.len() >= value.len() => Ok(None),
        _ => Ok(Some(value.copy()?)),
    }
}

/// The values of senders, in which a new value of one sender, if there is one, replaces its older
/// one.
#[derive(Drop)]
pub struct Replaced<'a, V> {
    pub values: &'a V,
    pub sender: u32,
    pub value: Option<&'a History>,
}

impl<'a, V: Values> Values for Replaced<'a, V> {
    ghost value = { λ r. value_with (V.value r.values.now) r.sender (option_map history_of (option_copied r.value)) };

    ghost within = { λ r. V.within r.values.now };

    fn value(&self, i: u32) -> Option<&History> {
        match self.value {
            Some(value) if i == self.sender => Some(value),
            _ => self.values.value(i),
        }
    }

    fn is_within(&self, i: u32) -> bool {
        self.values.is_within(i)
    }
}
