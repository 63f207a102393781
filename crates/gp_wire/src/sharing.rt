//! Threads may share a wire, and a pass may be moved to one. The test does nothing: that it compiles
//! shows what it says.
use crate::pass::Pass;
use crate::rules::Rules;
use crate::wire::Wire;

/// Every record is legal after every list.
#[derive(Clone, Copy)]
struct AllLegal;

impl Rules for AllLegal {
    ghost legal = { λ r xs x. Unit {0} };

    ghost stays = { λ r xs ys x legal more others. tt };
}

fn is_shared<T: Sync>() {}

fn is_moved<T: Send>() {}

// Threads may share a wire if they may share its rules.
fn wires_are_shared<R: Rules + Send + Sync>() {
    is_shared::<Wire<R>>();
    is_moved::<Wire<R>>();
}

#[test]
fn a_wire_is_shared_and_a_pass_is_moved() {
    wires_are_shared::<AllLegal>();
    is_moved::<Pass>();
}
