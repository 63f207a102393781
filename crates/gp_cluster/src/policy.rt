//! How the rounds of a run are chosen.

/// Which rounds coordinator 0 begins in a run.
#[derive(Clone, Copy, Debug, PartialEq, Eq)]
pub enum RoundPolicy {
    /// In each epoch a multi round, and a single round after the values of that round have
    /// collided. The proposers post their offers before the first round begins. That they post
    /// first is tested, not proved.
    Multi,
    /// In each epoch a fast round first, then multi and single rounds after collisions, and fast
    /// rounds again after a calm. That fast rounds come back is tested, not proved. The proposers
    /// post their offers when nothing is left to do in the first round. No clause says when they
    /// post.
    Adaptive,
}
