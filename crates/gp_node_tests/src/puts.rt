//! Histories of puts, for tables.
use gp_command::{Command, CommandId, Key};
use gp_history::Hist;
use gp_index::History;
use gp_store::{Op, draft_of};
use std::alloc::Global;
use std::test::Fail;

/// The key that is looked at.
pub const A: &[u8] = b"a";

/// Another key.
pub const B: &[u8] = b"b";

/// A put of proposer 0: the number of the command, the key and the value.
pub type Put = (u32, &'static [u8], u64);

fn learn(learned: &mut History, alloc: Global, put: Put) -> Result<(), Fail> {
    let (number, key, value) = put;
    let id = CommandId {
        proposer: 0,
        number,
    };
    let op = Op::Put(Key::new(key)?, value);
    learned.push(Command::new(id, draft_of(alloc, op)?))?;
    Ok(())
}

/// A history of these puts.
pub fn history(alloc: Global, puts: &[Put]) -> Result<History, Fail> {
    let mut learned = History::empty(alloc)?;
    learn_all(&mut learned, alloc, puts)?;
    Ok(learned)
}

fn learn_all(learned: &mut History, alloc: Global, puts: &[Put]) -> Result<(), Fail> {
    for put in puts {
        learn(learned, alloc, *put)?;
    }
    Ok(())
}
