//! What was found in a log.
ghost use Rattle.std.specs.Prelude.{◌≡◌, cond, Some, None};

use gp_msg::Durable;

/// What was found in a log: the durable part of its node, which is the last entry if there is one;
/// and whether the entries are of version 1 of the format.
#[derive(Drop)]
pub(crate) struct Found {
    pub(crate) part: Durable,
    pub(crate) has_entry: bool,
    pub(crate) is_old: bool,
}

impl Found {
    /// The last entry, if there is one.
    pub(crate) fn into_entry(self) -> Option<Durable>
        ensures { result ≡ cond self.has_entry (Some self.part) None }
    {
        let Found {
            part,
            has_entry,
            is_old: _,
        } = self;
        if has_entry {
            Some(part)
        } else {
            drop(part);
            None
        }
    }
}
