//! The offers of a proposer.
ghost use Rattle.std.specs.Prelude.{◌<◌, ◌≤◌, ◌+◌};

use crate::outcome::holds;
use gp_command::{CommandId, Draft, Key};
use gp_msg::{Msg, Outs};
use gp_proposer::Proposer;
use gp_store::{Op, draft_of};
use std::alloc::Global;
use std::test::Fail;

#[test]
fn offers_are_numbered_from_1(rt: HostRuntime) -> Result<(), Fail> {
    holds(&rt, are_numbered(rt.alloc()))
}

fn are_numbered(alloc: Global) -> Result<bool, Fail> {
    let mut proposer = Proposer::new(3);
    Ok(
        offers(alloc, &mut proposer, b"a", 1)?
            && offers(alloc, &mut proposer, b"x", 2)?
            && offers(alloc, &mut proposer, b"b", 3)?,
    )
}

fn draft(alloc: Global, key: &[u8]) -> Result<Draft, Fail> {
    Ok(draft_of(alloc, Op::Get(Key::new(key)?))?)
}

fn offers(alloc: Global, proposer: &mut Proposer, key: &[u8], number: u32) -> Result<bool, Fail>
    requires { proposer.old.offers < 3 }
    ensures { proposer.new.offers ≤ proposer.old.offers + 1 }
{
    is_offer(
        alloc,
        &proposer.offer(alloc, draft(alloc, key)?)?,
        key,
        number,
    )
}

// Whether a step sent the proposal of a read of this key, with this number.
fn is_offer(alloc: Global, outs: &Outs, key: &[u8], number: u32) -> Result<bool, Fail> {
    let id = CommandId {
        proposer: 3,
        number,
    };
    Ok(match outs.as_slice() {
        [Msg::Propose { command }] => command.id() == id && *command.draft() == draft(alloc, key)?,
        _ => false,
    })
}
