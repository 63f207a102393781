//! What readers see of a key.
use gp_command::CommandId;

/// One read: how many commands the reader had seen at that time, and the value of the key after
/// them, which is `None` if the key was absent.
#[derive(Clone, Copy, Debug, PartialEq, Eq)]
pub struct Look {
    pub seen: u64,
    pub value: Option<u64>,
}

/// The commands in the order in which they were run, and what each of two readers saw of the key,
/// one read after another.
#[derive(Drop)]
pub struct Looks {
    pub order: Vec<CommandId>,
    pub first: Vec<Look>,
    pub second: Vec<Look>,
}
