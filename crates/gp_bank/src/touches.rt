//! The keys that an operation touches.
ghost use Rattle.std.specs.Prelude.{◌≡◌, [], ◌∷◌};
ghost use Rattle.gp_command.specs.Key.{key_cmp};
ghost use Rattle.gp_store.specs.Operations.{touch};
ghost use Rattle.gp_bank.specs.Operations.{bank_foot, transfer_foot};
ghost use Rattle.gp_bank.specs.Touched.{touched};

use crate::op::BankOp;
use gp_command::{Access, Key, Touch};
use std::cmp::Ordering;

// The touches of one operation, in ascending order of their keys.
#[derive(Drop)]
pub(crate) enum Touches {
    None,
    One([Touch; 1]),
    Two([Touch; 2]),
}

impl Touches {
    pub(crate) fn of(op: &BankOp) -> Touches
        ensures { touched result ≡ bank_foot op.now }
    {
        match op {
            BankOp::Deposit(key, _) => Touches::one(*key, Access::Add),
            BankOp::Withdraw(key, _) => Touches::one(*key, Access::Write),
            BankOp::Transfer(from, into, _) => Touches::moving(*from, *into),
            BankOp::Balance(key) => Touches::one(*key, Access::Read),
            BankOp::Checkpoint => Touches::None,
        }
    }

    fn one(key: Key, access: Access) -> Touches
        ensures { touched result ≡ touch key access ∷ [] }
    {
        Touches::One([Touch { key, access }])
    }

    fn moving(from: Key, into: Key) -> Touches
        ensures { touched result ≡ transfer_foot (key_cmp from into) from into }
    {
        let write = Touch {
            key: from,
            access: Access::Write,
        };
        let add = Touch {
            key: into,
            access: Access::Add,
        };
        match from.cmp(&into) {
            Ordering::Less => Touches::Two([write, add]),
            Ordering::Equal => Touches::One([write]),
            Ordering::Greater => Touches::Two([add, write]),
        }
    }

    pub(crate) fn as_slice(&self) -> &[Touch]
        ensures { result.now ≡ touched self.now }
    {
        match self {
            Touches::None => &[],
            Touches::One(touches) => touches,
            Touches::Two(touches) => touches,
        }
    }
}
