//! What a test does with what it found.
use std::process::Abort;
use std::test::Fail;

/// Fails the test in which this does not hold.
pub fn holds(rt: &impl Abort, what: Result<bool, Fail>) -> Result<(), Fail> {
    assert!(rt; what?);
    Ok(())
}
