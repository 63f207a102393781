//! The tally, which is one number.
ghost use Rattle.std.specs.Prelude.{◌≡◌, IfOk, codes};
ghost use Rattle.gp_history.specs.Sequence.{history_of};
ghost use Rattle.gp_replica.specs.Machines.{state_of};
ghost use Rattle.gp_replica.specs.Runs.{HasDistinctIds};
ghost use Rattle.tally.specs.Uses.{use_in};
ghost use Rattle.tally.specs.Rules.{tally_rules};

use gp_command::{Access, Command, Key, NoMemory, Touch};
use gp_index::History;
use gp_replica::{Machine, Replica, Reply};
use std::alloc::Global;

/// A count that commands raise by one, modulo 2^64, reset to 0 or read.
///
/// A command does so if its only touch is of the key `n`: an addition raises the count, a write
/// resets it, and a read is answered with it. Every other command changes nothing and is answered
/// `Absent`.
#[derive(Clone, Copy)]
pub struct Tally {
    pub count: u64,
}

/// The touch of a command that works on the tally.
pub fn touch(access: Access) -> Touch
    ensures key { result.key ≡ codes "n" }
    ensures access { result.access ≡ access }
{
    Touch {
        key: Key::new(b"n").unwrap(),
        access,
    }
}

// How a command with this footprint works on the tally, if it does.
fn use_in(foot: &[Touch]) -> Option<Access>
    ensures { result ≡ use_in foot.now }
{
    match foot {
        [touch] if touch.key.as_bytes() == b"n".as_slice() => Some(touch.access),
        _ => None,
    }
}

impl Machine for Tally {
    ghost use Rattle.tally.specs.Commuting.{independent};

    ghost rules = { tally_rules };

    ghost independent = { independent };

    fn opening(_alloc: Global) -> Result<Tally, NoMemory> {
        Ok(Tally { count: 0 })
    }

    fn apply(&mut self, c: &Command) -> Result<Reply, NoMemory> {
        match use_in(c.draft().foot()) {
            Some(Access::Add) => {
                self.count = self.count.wrapping_add(1);
                Ok(Reply::Done)
            }
            Some(Access::Write) => {
                self.count = 0;
                Ok(Reply::Done)
            }
            Some(Access::Read) => Ok(Reply::Value(self.count)),
            None => Ok(Reply::Absent),
        }
    }
}

/// The tally after a learned history. It is the same for all sequences that represent the history.
/// `NoMemory` if memory runs out.
pub fn tally_of(alloc: Global, learned: &History) -> Result<Tally, NoMemory>
    requires { HasDistinctIds (history_of learned.now) }
    ensures { IfOk result (λ tally. tally ≡ state_of tally_rules (history_of learned.now)) }
{
    let mut replica = Replica::<Tally>::new(alloc)?;
    replica.catch_up(learned)?;
    Ok(*replica.machine())
}
