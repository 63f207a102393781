//! What a test does with what it found.
use std::process::Abort;
use std::test::Fail;

/// Fails the test in which this does not hold.
pub fn holds(rt: &impl Abort, what: Result<bool, Fail>) -> Result<(), Fail> {
    assert!(rt; what?);
    Ok(())
}

/// The same of a word, which the failure names.
pub fn holds_of(rt: &impl Abort, word: &str, what: Result<bool, Fail>) -> Result<(), Fail> {
    assert!(rt; what?, "of {word}");
    Ok(())
}
