//! The keys that an operation touches.
ghost use Rattle.std.specs.Prelude.{◌≡◌, [], ◌∷◌};
ghost use Rattle.gp_command.specs.Key.{key_cmp};
ghost use Rattle.gp_store.specs.Operations.{touch, op_foot, copy_foot};
ghost use Rattle.gp_store.specs.Touched.{touched};

use crate::op::Op;
use gp_command::{Access, Key, Touch};
use std::cmp::Ordering;

// The touches of one operation, in ascending order of their keys.
#[derive(Drop)]
pub(crate) enum Touches {
    None,
    One([Touch; 1]),
    Two([Touch; 2]),
}

impl Touches {
    pub(crate) fn of(op: &Op) -> Touches
        ensures { touched result ≡ op_foot op.now }
    {
        match op {
            Op::Put(key, _) => Touches::one(*key, Access::Write),
            Op::Add(key, _) => Touches::one(*key, Access::Add),
            Op::Get(key) => Touches::one(*key, Access::Read),
            Op::Del(key) => Touches::one(*key, Access::Write),
            Op::Cas(key, _, _) => Touches::one(*key, Access::Write),
            Op::Copy(from, into) => Touches::copying(*from, *into),
            Op::Checkpoint => Touches::None,
        }
    }

    fn one(key: Key, access: Access) -> Touches
        ensures { touched result ≡ touch key access ∷ [] }
    {
        Touches::One([Touch { key, access }])
    }

    fn copying(from: Key, into: Key) -> Touches
        ensures { touched result ≡ copy_foot (key_cmp from into) from into }
    {
        let read = Touch {
            key: from,
            access: Access::Read,
        };
        let write = Touch {
            key: into,
            access: Access::Write,
        };
        match from.cmp(&into) {
            Ordering::Less => Touches::Two([read, write]),
            Ordering::Equal => Touches::One([write]),
            Ordering::Greater => Touches::Two([write, read]),
        }
    }

    pub(crate) fn as_slice(&self) -> &[Touch]
        ensures { result.now ≡ touched self.now }
    {
        match self {
            Touches::None => &[],
            Touches::One(touches) => touches,
            Touches::Two(touches) => touches,
        }
    }
}
